// Document 02, requests 5 and 11: the command call over lists that C lends, with its notes by value, and its cut. With 32 numbers they are the
// module's; another count agrees with no image: a command is refused, which is noted, and a cut stores nothing. Crate `link_c` gives them their
// names for C.
#![tactic(auto)]

ghost use Rattle.std.specs.Prelude.{◌≡◌, cond};
ghost use Rattle.image.specs.Image.{valid_image};
ghost use Rattle.lent.specs.Word.{word};
ghost use Rattle.notes.specs.Noting.{lent_notes, noted_command};
ghost use Rattle.lent_commands.specs.LentCommands.{Commands, CutShort};

use lent::{NotedWord, count_answer, numbers_in, returned, word};
use notes::Notes;
use octets::octet_at;

// A command that is refused by the count.
fn refuse_command(notes: Notes, events: &mut [u8], image: &[u8], desk: u8, tag: u8) -> NotedWord
    ensures { (result.word ≡ word (cond (valid_image image.now) 2 1) 0 0) × (lent_notes result.notes events.new ≡ noted_command (lent_notes notes events.old) desk tag (cond (valid_image image.now) 2 1)) }
{
    let answer = count_answer(image);
    NotedWord {
        word: word(answer, 0, 0),
        notes: notes.after_command(events, desk, tag, answer),
    }
}

pub fn command_noted(
    notes: Notes,
    events: &mut [u8],
    image: &mut [u8],
    numbers: &mut [u32],
    desk: u8,
    command: &[u8],
    output: &mut [u8],
) -> NotedWord
    ensures { Commands notes events.old image.old numbers.old desk command.now output.old result.word result.notes events.new image.new numbers.new output.new }
{
    if numbers.len() != 32 {
        return refuse_command(notes, events, image, desk, octet_at(command, 0));
    }
    let given = numbers_in(numbers);
    let noted = noting::command_noted(notes, events, image, given, desk, command, output);
    let outcome = noted.outcome;
    let left = noted.notes;
    NotedWord {
        word: returned(outcome, numbers),
        notes: left,
    }
}

// The cut: the first `stores` of its octet stores, where its reply has that much room; how many were made.
pub fn command_cut_lent(
    image: &mut [u8],
    numbers: &[u32],
    desk: u8,
    command: &[u8],
    room: usize,
    stores: u32,
) -> u32
    ensures { CutShort image.old numbers.now desk command.now room stores result image.new }
{
    if numbers.len() != 32 {
        return 0;
    }
    commands::command_cut(image, numbers_in(numbers), desk, command, room, stores)
}
