// Octets in hexadecimal: two digits for each, in lower case.
ghost use Rattle.std.specs.Prelude.{◌≡◌};
ghost use Rattle.lines.specs.Hexadecimal.{digit_of, octet_of, Read};

use std::fmt;

// The value of a digit. `to_digit` is not this function: it takes upper case too.
fn digit(c: u8) -> Option<u8>
    ensures { result ≡ digit_of c }
{
    match c {
        b'0'..=b'9' => Some(c - b'0'),
        b'a'..=b'f' => Some(c - b'a' + 10),
        _ => None,
    }
}

// The octet that two digits spell.
fn octet(high: u8, low: u8) -> Option<u8>
    ensures { result ≡ octet_of high low }
{
    Some(16 * digit(high)? + digit(low)?)
}

// The octets that a text spells, up to its first two characters that spell none, to the front of `out`, as many as there is room for.
// Answers how many they are.
pub fn read_octets(text: &[u8], out: &mut [u8]) -> usize
    ensures { Read text.now out.old out.new result }
{
    let most = out.len().min(text.len() / 2);
    for i in 0..most {
        let Some(next) = octet(text[2 * i], text[2 * i + 1]) else {
            return i;
        };
        out[i] = next;
    }
    most
}

// Octets that are written in hexadecimal, one behind the other.
#[derive(Clone, Copy)]
pub struct Hexadecimal<'a>(pub &'a [u8]);

impl fmt::Display for Hexadecimal<'_> {
    fn fmt<W: fmt::Write>(&self, f: &mut fmt::Formatter<W>) -> fmt::Result {
        for octet in self.0 {
            write!(f, "{octet:02x}")?;
        }
        Ok(())
    }
}
