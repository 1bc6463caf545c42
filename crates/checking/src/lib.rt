// Document 01, 'What comes back': checking, carried out. Each call is what its definition of link's specs/Calls says.
#![tactic(auto)]

mod checking;

ghost use Rattle.std.specs.Prelude.{◌≡◌};
ghost use Rattle.engines.specs.Lent.{Lent};
ghost use Rattle.link.specs.Calls.{leaving, matched_number, checked};

use admission::admit_receiving;
use checking::check_under;
use judging::Said;
use link::{Outcome, refused};
use numbers::Numbers;

// What a check leaves, and the number of the entry that its frame matched, afterwards; 0 where none matched.
#[derive(Clone, Copy)]
pub struct Checked {
    pub outcome: Outcome,
    pub number: u32,
}

// The clear data of a secured frame to the front of the output, under the association that the frame's SPI names.
pub fn check_telling(
    tables: &[u32],
    image: &mut [u8],
    numbers: Numbers,
    said: Said,
    frame: &[u8],
    output: &mut [u8],
) -> Checked
    requires { Lent tables.now }
    ensures output_after { leaving result.outcome image.new output.new ≡ checked image.old numbers.last said frame.now output.old }
    ensures number_value { result.number ≡ matched_number image.old numbers.last said frame.now result.outcome.numbers.last }
{
    match admit_receiving(image, numbers, said, frame) {
        Err(refusal) => Checked {
            outcome: refused(Err(refusal), numbers),
            number: 0,
        },
        Ok(admission) => {
            let framing = admission.framing;
            let entry = admission.entry;
            let outcome = check_under(tables, image, numbers, framing, entry, frame, output);
            let after = outcome.numbers;
            Checked {
                outcome,
                number: after.of(entry),
            }
        }
    }
}

// The same, telling the outcome alone.
pub fn check_by(
    tables: &[u32],
    image: &mut [u8],
    numbers: Numbers,
    said: Said,
    frame: &[u8],
    output: &mut [u8],
) -> Outcome
    requires { Lent tables.now }
    ensures { leaving result image.new output.new ≡ checked image.old numbers.last said frame.now output.old }
{
    let told = check_telling(tables, image, numbers, said, frame, output);
    told.outcome
}

// The same with no tables.
pub fn check(
    image: &mut [u8],
    numbers: Numbers,
    said: Said,
    frame: &[u8],
    output: &mut [u8],
) -> Outcome
    ensures { leaving result image.new output.new ≡ checked image.old numbers.last said frame.now output.old }
{
    check_by(&[], image, numbers, said, frame, output)
}
