// What a call returns with the notes: they are made from its answer, once everything else is done.
ghost use Rattle.std.specs.Prelude.{◌≡◌, ◌%◌};
ghost use Rattle.judging.specs.Answers.{reported};
ghost use Rattle.notes.specs.Noting.{lent_notes, noted_check, noted_command};

use judging::report_of;
use link::Outcome;
use notes::Notes;

#[derive(Clone, Copy)]
pub struct NotedOutcome {
    pub outcome: Outcome,
    pub notes: Notes,
}

// A check, of a frame with that SPI; `number` is the entry's afterwards.
pub(crate) fn note_check(
    notes: Notes,
    events: &mut [u8],
    desk: u8,
    spi: u16,
    number: u32,
    outcome: Outcome,
) -> NotedOutcome
    ensures { (result.outcome ≡ outcome) × (lent_notes result.notes events.new ≡ noted_check (lent_notes notes events.old) desk (reported outcome.answer).number spi (number % 256)) }
{
    let answer = outcome.answer;
    let told = report_of(answer);
    NotedOutcome {
        outcome,
        notes: notes.after_check(events, desk, told.number, spi, (number % 256) as u8),
    }
}

// A command with that first octet.
pub(crate) fn note_command(
    notes: Notes,
    events: &mut [u8],
    desk: u8,
    tag: u8,
    outcome: Outcome,
) -> NotedOutcome
    ensures { (result.outcome ≡ outcome) × (lent_notes result.notes events.new ≡ noted_command (lent_notes notes events.old) desk tag (reported outcome.answer).number) }
{
    let answer = outcome.answer;
    let told = report_of(answer);
    NotedOutcome {
        outcome,
        notes: notes.after_command(events, desk, tag, told.number),
    }
}
