// The frame error control field of CCSDS 232.0 and CCSDS 132.0, here called check field: 16 bits behind a frame's other octets.
#![tactic(auto)]

mod table;
mod wide;

ghost use Rattle.std.specs.Prelude.{◌≡◌};
ghost use Rattle.octets.specs.Numbers.{bytes};
ghost use Rattle.check_field.specs.CheckField.{check_field, right_field};

use crate::table::{enter, shift_table};
use crate::wide::{enter_words, narrowed};

pub fn check_field(octets: &[u8]) -> u16
    ensures { result ≡ check_field octets.now }
{
    let table = shift_table();
    let mut register = narrowed(&table, enter_words(octets));
    // No `for`: of one the compiler lays out each of the seven turns that there may be, and `tests/secrets` counts the reads of the table.
    let mut i: usize = octets.len() / 8 * 8;
    while i < octets.len() {
        register = enter(&table, register, octets[i]);
        i += 1;
    }
    register
}

// The two octets of the field, as they stand behind a message.
pub fn field_octets(message: &[u8]) -> [u8; 2]
    ensures { result ≡ bytes 2 (check_field message.now) }
{
    check_field(message).to_be_bytes()
}

// Whether the last two octets of a frame are the field of those before them: then, and only then, the register is 0 after all of them.
pub fn right_field(frame: &[u8]) -> bool
    ensures { result ≡ right_field frame.now }
{
    check_field(frame) == 0
}
