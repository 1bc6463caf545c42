// The reply to a command to the notes: that of a dump, that of an erase, and none to an alarm reset.
ghost use Rattle.std.specs.Prelude.{◌≡◌, length};
ghost use Rattle.octets.specs.Output.{fronted};
ghost use Rattle.event_log.specs.Held.{lent_log};
ghost use Rattle.note_commands.specs.NoteCommands.{note_reply};

use event_log::{ERASE_REPLY, Log, dump_size, write_dump, write_erase_reply};
use notes::{DUMP, ERASE};

pub(crate) fn reply_size(log: Log, events: &[u8], tag: u8) -> usize
    ensures { result ≡ length (note_reply (lent_log log events.now) tag) }
{
    if tag == DUMP {
        return dump_size(log, events);
    }
    if tag == ERASE {
        return ERASE_REPLY;
    }
    0
}

// To the front of the output, whose rest stays; where there is no room for it, or no reply, nothing is written.
pub(crate) fn write_reply(log: Log, events: &[u8], tag: u8, output: &mut [u8])
    ensures { output.new ≡ fronted (note_reply (lent_log log events.now) tag) output.old }
{
    if tag == DUMP {
        write_dump(log, events, output);
        return;
    }
    if tag == ERASE {
        write_erase_reply(events, output);
    }
}
