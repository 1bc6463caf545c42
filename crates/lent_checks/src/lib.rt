// Document 02, request 11: checking over lists that C lends, with its notes by value. With 32 numbers it is the module's, by the engine that the
// tables are for; another count agrees with no image, and is refused, which is noted. Crate `link_c` gives it its names for C.
#![tactic(auto)]

ghost use Rattle.std.specs.Prelude.{◌≡◌, cond};
ghost use Rattle.engines.specs.Lent.{Lent};
ghost use Rattle.image.specs.Image.{valid_image};
ghost use Rattle.lent.specs.Word.{word};
ghost use Rattle.notes.specs.Noting.{lent_notes, noted_check};
ghost use Rattle.lent_checks.specs.LentChecks.{Checks};

use judging::Said;
use lent::{NotedWord, count_answer, numbers_in, returned, word};
use notes::Notes;
use word_tables::word_tables;

// A check that is refused by the count: after 1 and 2 the report tells neither SPI nor number.
fn refuse_check(notes: Notes, events: &mut [u8], image: &[u8], desk: u8) -> NotedWord
    ensures { (result.word ≡ word (cond (valid_image image.now) 2 1) 0 0) × (lent_notes result.notes events.new ≡ noted_check (lent_notes notes events.old) desk (cond (valid_image image.now) 2 1) 0 0) }
{
    let answer = count_answer(image);
    NotedWord {
        word: word(answer, 0, 0),
        notes: notes.after_check(events, desk, answer, 0, 0),
    }
}

// Checking by the engine that the tables are for.
fn check_lent(
    notes: Notes,
    events: &mut [u8],
    tables: &[u32],
    image: &mut [u8],
    numbers: &mut [u32],
    desk: u8,
    kind: u8,
    field: u8,
    frame: &[u8],
    output: &mut [u8],
) -> NotedWord
    requires { Lent tables.now }
    ensures { Checks notes events.old image.old numbers.old desk kind field frame.now output.old result.word result.notes events.new image.new numbers.new output.new }
{
    if numbers.len() != 32 {
        return refuse_check(notes, events, image, desk);
    }
    let said = Said {
        desk,
        kind,
        field: field != 0,
    };
    let given = numbers_in(numbers);
    let noted = noting::check_noted(notes, events, tables, image, given, said, frame, output);
    let outcome = noted.outcome;
    let left = noted.notes;
    NotedWord {
        word: returned(outcome, numbers),
        notes: left,
    }
}

// On board, where stack is dear.
pub fn check_noted(
    notes: Notes,
    events: &mut [u8],
    image: &mut [u8],
    numbers: &mut [u32],
    desk: u8,
    kind: u8,
    field: u8,
    frame: &[u8],
    output: &mut [u8],
) -> NotedWord
    ensures { Checks notes events.old image.old numbers.old desk kind field frame.now output.old result.word result.notes events.new image.new numbers.new output.new }
{
    check_lent(
        notes,
        events,
        &[],
        image,
        numbers,
        desk,
        kind,
        field,
        frame,
        output,
    )
}

// At a ground station, by tables of 4,096 octets, which lie on this call's stack and in no other's.
pub fn ground_check_noted(
    notes: Notes,
    events: &mut [u8],
    image: &mut [u8],
    numbers: &mut [u32],
    desk: u8,
    kind: u8,
    field: u8,
    frame: &[u8],
    output: &mut [u8],
) -> NotedWord
    ensures { Checks notes events.old image.old numbers.old desk kind field frame.now output.old result.word result.notes events.new image.new numbers.new output.new }
{
    let tables = word_tables();
    check_lent(
        notes, events, &tables, image, numbers, desk, kind, field, frame, output,
    )
}
