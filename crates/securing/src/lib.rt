// Document 01, 'What comes back': securing, carried out. Each call is what its definition of link's specs/Calls says.
#![tactic(auto)]

mod securing;

ghost use Rattle.std.specs.Prelude.{◌≡◌};
ghost use Rattle.engines.specs.Lent.{Lent};
ghost use Rattle.link.specs.Calls.{leaving, secured};

use admission::admit_sending;
use judging::Said;
use link::{Outcome, refused};
use numbers::Numbers;
use securing::secure_under;

// The secured frame of a clear one to the front of the output, under the association that the SPI names. `field` says whether the clear
// frame ends in a check field, and so the secured one. The tables that are lent say which engine makes the blocks of the cipher: those of crate
// `word_tables`, or none.
pub fn secure_by(
    tables: &[u32],
    image: &mut [u8],
    numbers: Numbers,
    said: Said,
    spi: u16,
    frame: &[u8],
    output: &mut [u8],
) -> Outcome
    requires { Lent tables.now }
    ensures { leaving result image.new output.new ≡ secured image.old numbers.last said spi frame.now output.old }
{
    match admit_sending(image, numbers, said, spi, frame) {
        Err(refusal) => refused(Err(refusal), numbers),
        Ok(admission) => {
            let framing = admission.framing;
            let entry = admission.entry;
            secure_under(tables, image, numbers, framing, entry, spi, frame, output)
        }
    }
}

// The same with no tables.
pub fn secure(
    image: &mut [u8],
    numbers: Numbers,
    said: Said,
    spi: u16,
    frame: &[u8],
    output: &mut [u8],
) -> Outcome
    ensures { leaving result image.new output.new ≡ secured image.old numbers.last said spi frame.now output.old }
{
    secure_by(&[], image, numbers, said, spi, frame, output)
}
