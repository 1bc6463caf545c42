// Document 01, 'The listing program': the text for an image. The program around it reads and writes.
#![tactic(auto)]

mod fields;
mod lines;

ghost use Rattle.std.specs.Prelude.{◌≡◌};
ghost use Rattle.octets.specs.Output.{fronted};
ghost use Rattle.listing_text.specs.Listing.{listing};
ghost use Rattle.writing.specs.Output.{written_to};

use lines::put_listing;
use writing::copy_front;

// No listing is longer, as proofs/Lengths.antt shows: a title of 45 octets, and 32 lines of 36.
pub const LONGEST: usize = 1197;

// The listing of the image to the front of `out`, whose rest stays. Where `out` has no room for all of it, nothing is written and the answer is None.
#[tactic(auto, using(crate::proofs::Lengths::longest))]
pub fn write_listing(image: &[u8], out: &mut [u8]) -> Option<usize>
    ensures value { result ≡ written_to (listing image.now) out.old }
    ensures out_after { out.new ≡ fronted (listing image.now) out.old }
{
    let mut text = [0u8; LONGEST];
    let count = put_listing(image, &mut text);
    copy_front(&text[..count], out)
}
