// Document 02, request 11: checking and the command call with the caller's notes: reports and counts go in by value and come back by value, and
// the events lie in a list that is lent. Each call is what its definition of specs/Noted says.
#![tactic(auto)]

mod noted;

ghost use Rattle.std.specs.Prelude.{◌≡◌};
ghost use Rattle.engines.specs.Lent.{Lent};
ghost use Rattle.link.specs.Calls.{leaving};
ghost use Rattle.event_log.specs.Held.{lent_log};
ghost use Rattle.notes.specs.Noting.{lent_notes};
ghost use Rattle.noting.specs.Noted.{leaving_noted, check_noted, commanded_with, command_noted};

use admission::spi_received;
use checking::check_telling;
use event_log::Log;
use judging::Said;
use link::Outcome;
use note_commands::{command_notes, for_notes};
pub use noted::NotedOutcome;
use noted::{note_check, note_command};
use notes::Notes;
use numbers::Numbers;
use octets::octet_at;

// Checking by the engine that the tables are for.
pub fn check_noted(
    notes: Notes,
    events: &mut [u8],
    tables: &[u32],
    image: &mut [u8],
    numbers: Numbers,
    said: Said,
    frame: &[u8],
    output: &mut [u8],
) -> NotedOutcome
    requires { Lent tables.now }
    ensures { leaving_noted result image.new output.new events.new ≡ check_noted (lent_notes notes events.old) image.old numbers.last said frame.now output.old }
{
    let spi = spi_received(said, frame);
    let told = check_telling(tables, image, numbers, said, frame, output);
    let outcome = told.outcome;
    note_check(notes, events, said.desk, spi, told.number, outcome)
}

// What a command leaves beside the notes.
fn command_with(
    log: Log,
    events: &[u8],
    image: &mut [u8],
    numbers: Numbers,
    desk: u8,
    command: &[u8],
    output: &mut [u8],
) -> Outcome
    ensures { leaving result image.new output.new ≡ commanded_with (lent_log log events.now) image.old numbers.last desk command.now output.old }
{
    if for_notes(octet_at(command, 0)) {
        return command_notes(log, events, image, numbers, desk, command, output);
    }
    commands::command(image, numbers, desk, command, output)
}

pub fn command_noted(
    notes: Notes,
    events: &mut [u8],
    image: &mut [u8],
    numbers: Numbers,
    desk: u8,
    command: &[u8],
    output: &mut [u8],
) -> NotedOutcome
    ensures { leaving_noted result image.new output.new events.new ≡ command_noted (lent_notes notes events.old) image.old numbers.last desk command.now output.old }
{
    let tag = octet_at(command, 0);
    let log = notes.log;
    let outcome = command_with(log, events, image, numbers, desk, command, output);
    note_command(notes, events, desk, tag, outcome)
}
