// Document 02, request 11: the commands to the notes, dump, erase and alarm reset: judged, and then replied to. Nothing is changed but the
// output: what they do to the notes is done by the call that lends them, once it has the answer.
#![tactic(auto)]

mod judged;
mod replying;

ghost use Rattle.std.specs.Prelude.{◌≡◌};
ghost use Rattle.link.specs.Calls.{leaving};
ghost use Rattle.event_log.specs.Held.{lent_log};
ghost use Rattle.note_commands.specs.NoteCommands.{for_notes, note_commanded};

use event_log::Log;
use judged::judge;
use judging::Done;
use link::{Outcome, refused};
use notes::{ALARM_RESET, DUMP, ERASE};
use numbers::Numbers;
use octets::octet_at;
use replying::write_reply;

// By its first octet.
pub fn for_notes(tag: u8) -> bool
    ensures { result ≡ for_notes tag }
{
    (tag == DUMP) | (tag == ERASE) | (tag == ALARM_RESET)
}

// A command to the notes from a desk, and its reply to the front of the output.
pub fn command_notes(
    log: Log,
    events: &[u8],
    image: &[u8],
    numbers: Numbers,
    desk: u8,
    command: &[u8],
    output: &mut [u8],
) -> Outcome
    ensures { leaving result image.now output.new ≡ note_commanded (lent_log log events.now) image.now numbers.last desk command.now output.old }
{
    match judge(log, events, image, numbers, desk, command, output.len()) {
        Err(refusal) => refused(Err(refusal), numbers),
        Ok(size) => {
            write_reply(log, events, octet_at(command, 0), output);
            Outcome {
                answer: Ok(Done {
                    length: size,
                    stores: 0,
                }),
                numbers,
            }
        }
    }
}
