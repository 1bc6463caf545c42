// A load and a sending over lists that C lends: with 32 numbers the module's, by the engine that the tables are for; another count agrees with no
// image, and is refused. Crate `link_c` gives them their names for C.
#![tactic(auto)]

ghost use Rattle.std.specs.Prelude.{[]};
ghost use Rattle.engines.specs.Lent.{Lent};
ghost use Rattle.lent.specs.Interface.{Returned, told};
ghost use Rattle.lent_calls.specs.LentCalls.{load_call, secure_call};

use judging::Said;
use lent::{count_answer, numbers_in, returned, word};
use word_tables::word_tables;

pub fn load_lent(image: &[u8], numbers: &mut [u32]) -> u64
    ensures { Returned (load_call image.now numbers.old) result image.now numbers.new [] }
{
    if numbers.len() != 32 {
        return word(count_answer(image), 0, 0);
    }
    returned(link::load(image, numbers_in(numbers)), numbers)
}

// Sending by the engine that the tables are for.
fn secure_by_tables(
    tables: &[u32],
    image: &mut [u8],
    numbers: &mut [u32],
    desk: u8,
    kind: u8,
    field: u8,
    spi: u16,
    frame: &[u8],
    output: &mut [u8],
) -> u64
    requires { Lent tables.now }
    ensures { Returned (secure_call image.old numbers.old (told desk kind field) spi frame.now output.old) result image.new numbers.new output.new }
{
    if numbers.len() != 32 {
        return word(count_answer(image), 0, 0);
    }
    let said = Said {
        desk,
        kind,
        field: field != 0,
    };
    let given = numbers_in(numbers);
    returned(
        securing::secure_by(tables, image, given, said, spi, frame, output),
        numbers,
    )
}

// On board, where stack is dear.
pub fn secure_lent(
    image: &mut [u8],
    numbers: &mut [u32],
    desk: u8,
    kind: u8,
    field: u8,
    spi: u16,
    frame: &[u8],
    output: &mut [u8],
) -> u64
    ensures { Returned (secure_call image.old numbers.old (told desk kind field) spi frame.now output.old) result image.new numbers.new output.new }
{
    secure_by_tables(&[], image, numbers, desk, kind, field, spi, frame, output)
}

// At a ground station, by tables of 4,096 octets, which lie on this call's stack and in no other's.
pub fn ground_secure_lent(
    image: &mut [u8],
    numbers: &mut [u32],
    desk: u8,
    kind: u8,
    field: u8,
    spi: u16,
    frame: &[u8],
    output: &mut [u8],
) -> u64
    ensures { Returned (secure_call image.old numbers.old (told desk kind field) spi frame.now output.old) result image.new numbers.new output.new }
{
    let tables = word_tables();
    secure_by_tables(
        &tables, image, numbers, desk, kind, field, spi, frame, output,
    )
}
