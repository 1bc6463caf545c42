// Numbers in decimal.
ghost use Rattle.std.specs.Prelude.{◌≡◌, ◌+◌, ◌%◌, ◌≤◌, length};
ghost use Rattle.writing.specs.Output.{Put};
ghost use Rattle.writing.specs.Text.{digits, decimal};

use crate::output::put_octet;

// The last digit of a number, from 48, the character 0, on.
fn last_digit(n: u32) -> u8
    ensures { result ≡ 48 + n % 10 }
{
    48 + (n % 10) as u8
}

// A number of at most so many digits: those of n / 10, and then the digit n % 10.
#[tactic(auto, using(crate::proofs::Puts::put_none, crate::proofs::Puts::put_then), unfolding(crate::specs::Text::digits))]
fn put_digits(out: &mut [u8], at: usize, most: usize, n: u32) -> usize
    requires { at + length (digits most n) ≤ length out.old }
    ensures { Put out.old at (digits most n) out.new result }
{
    if most == 0 {
        return at;
    }
    if n < 10 {
        return put_octet(out, at, last_digit(n));
    }
    let last = put_digits(out, at, most - 1, n / 10);
    put_octet(out, last, last_digit(n))
}

pub fn put_decimal(out: &mut [u8], at: usize, n: u32) -> usize
    requires { at + length (decimal n) ≤ length out.old }
    ensures { Put out.old at (decimal n) out.new result }
{
    put_digits(out, at, 10, n)
}
