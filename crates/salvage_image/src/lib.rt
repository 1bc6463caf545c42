// Document 02, request 12: from the octets of a damaged image, the image that is made of its kept entries. The program around it reads and
// writes.
#![tactic(auto)]

mod image_text;
mod refusal;

ghost use Rattle.std.specs.Prelude.{◌≡◌};
ghost use Rattle.octets.specs.Output.{fronted};
ghost use Rattle.writing.specs.Output.{written_to};
ghost use Rattle.salvage_image.specs.Salvage.{salvaged_image};

use image_text::put_image;
pub use refusal::salvageable;
use writing::copy_front;

// No image of version 1 or 2 is longer, and no other is salvaged.
pub const LONGEST_SALVAGED: usize = 1794;

// The new image to the front of `out`, whose rest stays; there is none of a refused input. Where `out` has no room for all of it, nothing is
// written and the answer is None.
#[tactic(auto, using(crate::proofs::Sizes::longest_image))]
pub fn write_image(x: &[u8], out: &mut [u8]) -> Option<usize>
    ensures value { result ≡ written_to (salvaged_image x.now) out.old }
    ensures out_after { out.new ≡ fronted (salvaged_image x.now) out.old }
{
    let mut image = [0u8; LONGEST_SALVAGED];
    let count = put_image(x, &mut image);
    copy_front(&image[..count], out)
}
