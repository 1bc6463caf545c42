// A clear frame under the entry that it matches: judged, and then it goes out secured.
ghost use Rattle.std.specs.Prelude.{◌≡◌, true, false, length, set};
ghost use Rattle.octets.specs.Output.{written};
ghost use Rattle.kinds.specs.Kinds.{framed};
ghost use Rattle.frame.specs.Rules.{obeys};
ghost use Rattle.engines.specs.Lent.{Lent};
ghost use Rattle.marks.specs.Stores.{stores_in};
ghost use Rattle.protection.specs.Protection.{secured_frame};
ghost use Rattle.sealing.specs.Steps.{Securable};
ghost use Rattle.judging.specs.Answers.{reported, granted};
ghost use Rattle.link.specs.Calls.{leaving, left};
ghost use Rattle.link.specs.Steps.{sending_reply};

use association::{Held, held_at};
use judging::Grant;
use kinds::Framing;
use link::{Outcome, carried_out, refused};
use marks::make_all;
use numbers::Numbers;
use sealing::write_secured;
use verdicts::judge_sending;

// The frame goes out behind its stores: `made` is how many of them were made, and has to be all.
fn hand_out(
    tables: &[u32],
    grant: Grant,
    made: u32,
    numbers: Numbers,
    framing: Framing,
    held: Held,
    spi: u16,
    frame: &[u8],
    output: &mut [u8],
) -> Outcome
    requires lent { Lent tables.now }
    requires made_value { made ≡ stores_in grant.plan }
    requires securable { Securable held (framed framing) frame.now (length output.old) }
    ensures answer_value { (reported result.answer ≡ granted grant.size (stores_in grant.plan)) × (result.numbers.last ≡ set numbers.last grant.entry grant.number) }
    ensures output_after { output.new ≡ written (secured_frame held (framed framing) spi grant.number frame.now) output.old }
{
    write_secured(tables, framing, held, spi, grant.number, frame, output);
    carried_out(grant, made, numbers)
}

// Under the entry that matches: judged, and then carried out.
pub(crate) fn secure_under(
    tables: &[u32],
    image: &mut [u8],
    numbers: Numbers,
    framing: Framing,
    entry: u8,
    spi: u16,
    frame: &[u8],
    output: &mut [u8],
) -> Outcome
    requires lent { Lent tables.now }
    requires false_value { obeys (framed framing) frame.now false ≡ true }
    ensures { leaving result image.new output.new ≡ left (sending_reply image.old numbers.last entry (framed framing) spi frame.now (length output.old)) image.old numbers.last output.old }
{
    let held = held_at(image, entry);
    let last = numbers.of(entry);
    match judge_sending(image, entry, held, last, framing, frame, output.len()) {
        Err(refusal) => refused(Err(refusal), numbers),
        Ok(grant) => {
            let plan = grant.plan;
            let made = make_all(image, plan);
            hand_out(
                tables, grant, made, numbers, framing, held, spi, frame, output,
            )
        }
    }
}
