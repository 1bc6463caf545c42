// Octets: what every layer cites of lists of octets. specs/ has the definitions and proofs/ the laws; the code is what several layers call.
#![tactic(auto)]

mod adding;
mod copying;

ghost use Rattle.std.specs.Prelude.{◌≡◌, ◌+◌, ◌*◌};
ghost use Rattle.octets.specs.Lists.{octet};
ghost use Rattle.octets.specs.Numbers.{number_at};
ghost use Rattle.octets.specs.Same.{same};

pub use adding::xors;
pub use copying::{block_at, copy_at, octet_behind, put, put_behind};

// Octet i, and 0 past the end. No `get`: it answers by a tag with a pointer behind it, and where a pair of these is read at once, `tools/port` has
// to change the module for every processor of 32 bits.
pub fn octet_at(s: &[u8], i: usize) -> u8
    ensures { result ≡ octet s.now i }
{
    if i < s.len() { s[i] } else { 0 }
}

// The number that the two octets at a place make, the high one first. Past the end octets are 0.
pub fn two_at(s: &[u8], at: usize) -> u16
    ensures { result ≡ number_at at 2 s.now }
{
    u16::from_be_bytes([octet_at(s, at), octet_behind(s, at, 1)])
}

// The number that the four octets at a place make, likewise.
pub fn four_at(s: &[u8], at: usize) -> u32
    ensures { result ≡ number_at at 4 s.now }
{
    u32::from_be_bytes([
        octet_at(s, at),
        octet_behind(s, at, 1),
        octet_behind(s, at, 2),
        octet_behind(s, at, 3),
    ])
}

// Whether two blocks are the same. All sixteen octets are compared, whatever they hold: nothing ends the loop early.
pub fn same_block(a: [u8; 16], b: [u8; 16]) -> bool
    ensures { result ≡ same a b }
{
    let mut differing: u8 = 0;
    for i in 0..16 {
        differing |= a[i] ^ b[i];
    }
    differing == 0
}
