// Writing to an output: an octet or a text at a place, and a whole text to the front.
ghost use Rattle.std.specs.Prelude.{◌≡◌, [], ◌∷◌, ◌+◌, ◌<◌, ◌≤◌, length, take, unwrap_or};
ghost use Rattle.octets.specs.Output.{fronted};
ghost use Rattle.writing.specs.Output.{Put, written_to};

use octets::put;

pub fn put_octet(out: &mut [u8], at: usize, octet: u8) -> usize
    requires { at < length out.old }
    ensures { Put out.old at (octet ∷ []) out.new result }
{
    out[at] = octet;
    at + 1
}

#[tactic(auto, using(crate::proofs::Puts::put_whole))]
pub fn put_text(out: &mut [u8], at: usize, text: &[u8]) -> usize
    requires { at + length text.now ≤ length out.old }
    ensures { Put out.old at text.now out.new result }
{
    let behind = at + text.len();
    out[at..behind].copy_from_slice(text);
    behind
}

// The text to the front of `out`, whose rest stays. The answer is its length, or None where `out` has no room for all of it: then `out` is as
// it was.
#[tactic(auto, unfolding(crate::specs::Output::written_to, octets::specs::Output::fronted))]
pub fn copy_front(text: &[u8], out: &mut [u8]) -> Option<usize>
    ensures value { result ≡ written_to text.now out.old }
    ensures out_after { out.new ≡ fronted text.now out.old }
{
    if out.len() < text.len() {
        return None;
    }
    put(text, out);
    Some(text.len())
}

// The text in an output that it was written to; none of one that had no room.
pub fn text_in(written: Option<usize>, out: &[u8]) -> &[u8]
    ensures { result.now ≡ take (unwrap_or written 0) out.now }
{
    let length = written.unwrap_or(0);
    &out[..length.min(out.len())]
}
