// Document 01: the link security module secures and checks TC, TM and AOS transfer frames under the associations of an image. What each call
// does is defined here: the answer, the numbers that come back, and every octet of the image and the output at its return. Load is carried
// out here too, crate `securing` secures and crate `checking` checks. The caller keeps the image in memory that outlives a failure of power,
// and hands the numbers of one call to the next.
#![tactic(auto)]

mod outcome;

ghost use Rattle.std.specs.Prelude.{[], ◌≡◌};
ghost use Rattle.link.specs.Calls.{leaving, loaded};

pub use judging::Answer;
use judging::{Done, Refusal};
use numbers::Numbers;
pub use outcome::{Outcome, carried_out, refused};

// A load accepts an image and gives the numbers that its marks stand for. It stores nothing.
pub fn load(image: &[u8], numbers: Numbers) -> Outcome
    ensures { leaving result image.now [] ≡ loaded image.now numbers.last }
{
    let mut back = numbers;
    match numbers::load(image, &mut back) {
        Ok(()) => Outcome {
            answer: Ok(Done {
                length: 0,
                stores: 0,
            }),
            numbers: back,
        },
        Err(unfit) => refused(Err(Refusal::from(unfit)), back),
    }
}
