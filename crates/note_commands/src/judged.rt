// A command to the notes, 1, 2, 19, 13 and 6 in the papers' order. Nothing is changed.
ghost use Rattle.std.specs.Prelude.{◌≡◌, length};
ghost use Rattle.command_form.specs.Form.{tag_of};
ghost use Rattle.judging.specs.Answers.{first};
ghost use Rattle.event_log.specs.Held.{lent_log};
ghost use Rattle.note_commands.specs.NoteCommands.{note_reply, desk_tests, note_tests};
ghost use Rattle.note_commands.specs.NoteCommands.{wrong_desk, bare as NoteCommands·bare};
ghost use Rattle.note_commands.specs.Steps.{Ruled};

use crate::replying::reply_size;
use bodies::KEY_OFFICE;
use command_form::{measured, value_length};
use event_log::Log;
use judging::{Refusal, no_desk};
use notes::{DUMP, ERASE};
use numbers::{Numbers, test_standing};
use octets::octet_at;

// A number that is no desk's, or a command to the log from another desk than the key office's.
fn wrong_desk(desk: u8, tag: u8) -> bool
    ensures { result ≡ wrong_desk desk tag }
{
    no_desk(desk) | (((tag == DUMP) | (tag == ERASE)) & !(desk == KEY_OFFICE))
}

// Its value is empty.
fn bare(command: &[u8]) -> bool
    ensures { result ≡ NoteCommands·bare command.now }
{
    measured(command) & (value_length(command) == 0)
}

// Past 1 and 2: 19, 13 and 6. The octets of the reply, or the first refusal.
fn judge_within(
    log: Log,
    events: &[u8],
    desk: u8,
    command: &[u8],
    room: usize,
) -> Result<usize, Refusal>
    ensures { Ruled result (first (desk_tests (lent_log log events.now) desk command.now room)) (length (note_reply (lent_log log events.now) (tag_of command.now))) }
{
    let tag = octet_at(command, 0);
    if wrong_desk(desk, tag) {
        return Err(Refusal::WrongDesk);
    }
    if !bare(command) {
        return Err(Refusal::BadCommand);
    }
    let size = reply_size(log, events, tag);
    if room < size {
        return Err(Refusal::NoRoom);
    }
    Ok(size)
}

pub(crate) fn judge(
    log: Log,
    events: &[u8],
    image: &[u8],
    numbers: Numbers,
    desk: u8,
    command: &[u8],
    room: usize,
) -> Result<usize, Refusal>
    ensures { Ruled result (first (note_tests (lent_log log events.now) image.now numbers.last desk command.now room)) (length (note_reply (lent_log log events.now) (tag_of command.now))) }
{
    test_standing(image, numbers)?;
    judge_within(log, events, desk, command, room)
}
