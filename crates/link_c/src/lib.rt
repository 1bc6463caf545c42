// The link security module for C: include/xistalvo.h declares these functions. A slice passes as a pointer and a count of its elements. Each
// function is one of crate `lent_calls`, `lent_checks` or `lent_commands`, or the cut of crate `numbers`, over lists that the caller lends: nothing
// is kept between calls.
// The notes, reports and log, are a struct that the caller lends by `&mut` (document 01, 'Matching forms to places'): the function copies
// them out, calls the one that does the work by value, and stores what that returns, the last thing that it does.
#![tactic(auto)]

ghost use Rattle.std.specs.Prelude.{[], ◌≡◌};
ghost use Rattle.numbers.specs.Stores.{stores_made, after_stores};
ghost use Rattle.lent.specs.Interface.{Returned, told};
ghost use Rattle.lent_calls.specs.LentCalls.{load_call, secure_call};
ghost use Rattle.lent_checks.specs.LentChecks.{Checks};
ghost use Rattle.lent_commands.specs.LentCommands.{Commands, CutShort};
ghost use Rattle.notes.specs.Noting.{fresh_notes};

use lent_calls::{ground_secure_lent, load_lent, secure_lent};
use lent_checks::{check_noted, ground_check_noted};
use lent_commands::{command_cut_lent, command_noted};
use notes::Notes;

// Notes with no event and no alarm, over those that are lent.
#[unsafe(no_mangle)]
pub extern "C" fn xistalvo_fresh_notes(notes: &mut Notes)
    ensures { notes.new ≡ fresh_notes }
{
    *notes = Notes::fresh();
}

// A restart.
#[unsafe(no_mangle)]
pub extern "C" fn xistalvo_load(image: &[u8], numbers: &mut [u32]) -> u64
    ensures { Returned (load_call image.now numbers.old) result image.now numbers.new [] }
{
    load_lent(image, numbers)
}

// The secured frame of a clear one, to the front of the output: on board, where stack is dear. `field` is a number, 0 for no check field, as C has
// no other truth that is defined for every octet.
#[unsafe(no_mangle)]
pub extern "C" fn xistalvo_secure(
    image: &mut [u8],
    numbers: &mut [u32],
    desk: u8,
    kind: u8,
    field: u8,
    spi: u16,
    frame: &[u8],
    output: &mut [u8],
) -> u64
    ensures { Returned (secure_call image.old numbers.old (told desk kind field) spi frame.now output.old) result image.new numbers.new output.new }
{
    secure_lent(image, numbers, desk, kind, field, spi, frame, output)
}

// The same at a ground station.
#[unsafe(no_mangle)]
pub extern "C" fn xistalvo_ground_secure(
    image: &mut [u8],
    numbers: &mut [u32],
    desk: u8,
    kind: u8,
    field: u8,
    spi: u16,
    frame: &[u8],
    output: &mut [u8],
) -> u64
    ensures { Returned (secure_call image.old numbers.old (told desk kind field) spi frame.now output.old) result image.new numbers.new output.new }
{
    ground_secure_lent(image, numbers, desk, kind, field, spi, frame, output)
}

// The clear data of a secured frame, to the front of the output.
#[unsafe(no_mangle)]
pub extern "C" fn xistalvo_check(
    notes: &mut Notes,
    events: &mut [u8],
    image: &mut [u8],
    numbers: &mut [u32],
    desk: u8,
    kind: u8,
    field: u8,
    frame: &[u8],
    output: &mut [u8],
) -> u64
    ensures { Checks notes.old events.old image.old numbers.old desk kind field frame.now output.old result notes.new events.new image.new numbers.new output.new }
{
    let checked = check_noted(
        *notes, events, image, numbers, desk, kind, field, frame, output,
    );
    *notes = checked.notes;
    checked.word
}

// The same at a ground station.
#[unsafe(no_mangle)]
pub extern "C" fn xistalvo_ground_check(
    notes: &mut Notes,
    events: &mut [u8],
    image: &mut [u8],
    numbers: &mut [u32],
    desk: u8,
    kind: u8,
    field: u8,
    frame: &[u8],
    output: &mut [u8],
) -> u64
    ensures { Checks notes.old events.old image.old numbers.old desk kind field frame.now output.old
        result notes.new events.new image.new numbers.new output.new }
{
    let found = ground_check_noted(
        *notes, events, image, numbers, desk, kind, field, frame, output,
    );
    *notes = found.notes;
    found.word
}

// A management command, and its reply to the front of the output.
#[unsafe(no_mangle)]
pub extern "C" fn xistalvo_command(
    notes: &mut Notes,
    events: &mut [u8],
    image: &mut [u8],
    numbers: &mut [u32],
    desk: u8,
    command: &[u8],
    output: &mut [u8],
) -> u64
    ensures { Commands notes.old events.old image.old numbers.old desk command.now output.old result notes.new events.new image.new numbers.new output.new }
{
    let done = command_noted(*notes, events, image, numbers, desk, command, output);
    *notes = done.notes;
    done.word
}

// The cut of a command: the first `stores` of its octet stores, where its reply has that much room; how many were made. Numbers that are not
// 32 agree with no image, so nothing is stored.
#[unsafe(no_mangle)]
pub extern "C" fn xistalvo_command_cut(
    image: &mut [u8],
    numbers: &[u32],
    desk: u8,
    command: &[u8],
    room: usize,
    stores: u32,
) -> u32
    ensures { CutShort image.old numbers.now desk command.now room stores result image.new }
{
    command_cut_lent(image, numbers, desk, command, room, stores)
}

// The cut: the first `stores` of the octet stores that raise the mark of an entry to that of a number; how many were made.
#[unsafe(no_mangle)]
pub extern "C" fn xistalvo_raise(image: &mut [u8], entry: u8, number: u32, stores: u32) -> u32
    ensures { (result ≡ stores_made image.old entry number stores) × (image.new ≡ after_stores image.old entry number stores) }
{
    numbers::raise(image, entry, number, stores)
}
