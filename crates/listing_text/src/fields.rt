// Fields, which are one space apart.
ghost use Rattle.std.specs.Prelude.{◌+◌, ◌≤◌, length};
ghost use Rattle.writing.specs.Output.{Put};
ghost use Rattle.listing_text.specs.Listing.{field, fields};

use writing::{put_decimal, put_octet};

// A number and the space behind it.
#[tactic(auto, using(writing::proofs::Puts::put_then), unfolding(crate::specs::Listing::field))]
fn put_field(out: &mut [u8], at: usize, n: u32) -> usize
    requires { at + length (field n) ≤ length out.old }
    ensures { Put out.old at (field n) out.new result }
{
    let behind = put_decimal(out, at, n);
    put_octet(out, behind, b' ')
}

#[tactic(auto, using(crate::proofs::Parts::fields_within, writing::proofs::Puts::put_none), unfolding(crate::specs::Listing::fields))]
pub(crate) fn put_fields(out: &mut [u8], at: usize, numbers: [u32; 6]) -> usize
    requires { at + length (fields numbers) ≤ length out.old }
    ensures { Put out.old at (fields numbers) out.new result }
{
    let mut behind = at;
    for n in &numbers {
        behind = put_field(out, behind, *n);
    }
    behind
}
