// A secured frame under the entry that it matches: judged, and then its data is released.
ghost use Rattle.std.specs.Prelude.{◌≡◌, true, ◌≤◌, length, set};
ghost use Rattle.octets.specs.Output.{written};
ghost use Rattle.kinds.specs.Kinds.{framed};
ghost use Rattle.frame.specs.Rules.{obeys};
ghost use Rattle.engines.specs.Lent.{Lent};
ghost use Rattle.marks.specs.Stores.{stores_in};
ghost use Rattle.protection.specs.Protection.{clear_data, clear_length};
ghost use Rattle.opening.specs.Steps.{Opens};
ghost use Rattle.judging.specs.Answers.{reported, granted};
ghost use Rattle.link.specs.Calls.{leaving, left};
ghost use Rattle.link.specs.Steps.{receiving_reply};

use association::held_at;
use judging::Grant;
use kinds::Framing;
use link::{Outcome, carried_out, refused};
use marks::make_all;
use numbers::Numbers;
use opening::{Opening, opening_of, release_data};
use verdicts::judge_receiving;

// The data is released behind its stores: `made` is how many of them were made, and has to be all.
fn release(
    tables: &[u32],
    grant: Grant,
    made: u32,
    numbers: Numbers,
    opening: Opening,
    frame: &[u8],
    output: &mut [u8],
) -> Outcome
    requires lent { Lent tables.now }
    requires made_value { made ≡ stores_in grant.plan }
    requires opens { Opens opening frame.now × (clear_length opening.held (framed opening.framing) frame.now ≤ length output.old) }
    ensures answer_value { (reported result.answer ≡ granted grant.size (stores_in grant.plan)) × (result.numbers.last ≡ set numbers.last grant.entry grant.number) }
    ensures output_after { output.new ≡ written (clear_data opening.held (framed opening.framing) frame.now) output.old }
{
    release_data(tables, opening, frame, output);
    carried_out(grant, made, numbers)
}

// Under the entry that matches: judged, and then carried out.
pub(crate) fn check_under(
    tables: &[u32],
    image: &mut [u8],
    numbers: Numbers,
    framing: Framing,
    entry: u8,
    frame: &[u8],
    output: &mut [u8],
) -> Outcome
    requires lent { Lent tables.now }
    requires true_value { obeys (framed framing) frame.now true ≡ true }
    ensures { leaving result image.new output.new ≡ left (receiving_reply image.old numbers.last entry (framed framing) frame.now (length output.old)) image.old numbers.last output.old }
{
    let held = held_at(image, entry);
    let opening = opening_of(framing, held, frame);
    let last = numbers.of(entry);
    match judge_receiving(tables, image, entry, last, opening, frame, output.len()) {
        Err(refusal) => refused(Err(refusal), numbers),
        Ok(grant) => {
            let plan = grant.plan;
            let made = make_all(image, plan);
            release(tables, grant, made, numbers, opening, frame, output)
        }
    }
}
