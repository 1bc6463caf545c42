// FIPS 197, the steps of a round (5.1) on the four columns of a state, each a word with row 0 highest, by tables (crate `word_tables`).
// ShiftRows (5.1.2) takes row r of a column from the column r places further to the right, so that a column of what follows it is made of
// four: row 0 of a, row 1 of b, row 2 of c and row 3 of d.
#![tactic(auto)]

ghost use Rattle.std.specs.Prelude.{◌≡◌, ◌%◌, ◌<◌};
ghost use Rattle.octets.specs.Lists.{octet};
ghost use Rattle.substitution.specs.Field.{◌⊗◌};
ghost use Rattle.cipher.specs.AddRoundKey.{add_round_key};
ghost use Rattle.cipher.specs.MixColumns.{mixer, mix_columns};
ghost use Rattle.cipher.specs.ShiftRows.{shift_rows};
ghost use Rattle.cipher.specs.SubBytes.{sub_bytes};
ghost use Rattle.columns.specs.Columns.{Column, state_from};
ghost use Rattle.word_rounds.specs.Apart.{IsTable, AreTables};
ghost use Rattle.word_rounds.specs.Diagonal.{diagonal};

use columns::{joined, word_at};

// The lowest octet of x, as a place of a table. `last` is the last place: with 255 written here the compiler would mask it together with the
// size of an entry, and a lookup would take an instruction more on Arm.
fn place(last: u32, x: u32) -> usize
    requires { last ≡ 255 }
    ensures { result ≡ x % 256 }
{
    (x & last) as usize
}

// SubBytes and MixColumns: the product by a(x) of a column is the sum of those of its rows, each of which is in a table. Of the lower rows
// x86-64 takes the octet by one instruction, so these have no use for `last`.
fn mixed_column(
    first: &[u32],
    second: &[u32],
    third: &[u32],
    fourth: &[u32],
    last: u32,
    a: u32,
    b: u32,
    c: u32,
    d: u32,
) -> u32
    requires are_tables { AreTables first.now second.now third.now fourth.now }
    requires last_value { last ≡ 255 }
    ensures { Column result (λ i. octet (mixer ⊗ diagonal a b c d) i) }
{
    first[place(last, a / 0x1000000)]
        ^ second[place(last, b / 0x10000)]
        ^ third[(c / 0x100 % 256) as usize]
        ^ fourth[(d % 256) as usize]
}

// SubBytes, ShiftRows and MixColumns.
pub fn mixed(
    first: &[u32],
    second: &[u32],
    third: &[u32],
    fourth: &[u32],
    last: u32,
    v: [u32; 4],
) -> [u32; 4]
    requires are_tables { AreTables first.now second.now third.now fourth.now }
    requires last_value { last ≡ 255 }
    ensures { state_from result ≡ mix_columns (shift_rows (sub_bytes (state_from v))) }
{
    [
        mixed_column(first, second, third, fourth, last, v[0], v[1], v[2], v[3]),
        mixed_column(first, second, third, fourth, last, v[1], v[2], v[3], v[0]),
        mixed_column(first, second, third, fourth, last, v[2], v[3], v[0], v[1]),
        mixed_column(first, second, third, fourth, last, v[3], v[0], v[1], v[2]),
    ]
}

// SubBytes alone. a(x) has the coefficient {01} twice, so that two octets of each word are the S-box itself: rows 1 and 2 of the first table's,
// rows 2 and 3 of the second's, rows 3 and 0 of the third's. Each row takes a table that has it in its place.
fn substituted_column(
    first: &[u32],
    second: &[u32],
    third: &[u32],
    a: u32,
    b: u32,
    c: u32,
    d: u32,
) -> u32
    requires { IsTable 0 first.now × IsTable 1 second.now × IsTable 2 third.now }
    ensures { Column result (λ i. octet (diagonal a b c d) i) }
{
    joined(
        (third[(a / 0x1000000 % 256) as usize] / 0x1000000 % 256) as u8,
        (first[(b / 0x10000 % 256) as usize] / 0x10000 % 256) as u8,
        (first[(c / 0x100 % 256) as usize] / 0x100 % 256) as u8,
        (second[(d % 256) as usize] % 256) as u8,
    )
}

// SubBytes and ShiftRows.
pub fn rows_shifted(first: &[u32], second: &[u32], third: &[u32], v: [u32; 4]) -> [u32; 4]
    requires { IsTable 0 first.now × IsTable 1 second.now × IsTable 2 third.now }
    ensures { state_from result ≡ shift_rows (sub_bytes (state_from v)) }
{
    [
        substituted_column(first, second, third, v[0], v[1], v[2], v[3]),
        substituted_column(first, second, third, v[1], v[2], v[3], v[0]),
        substituted_column(first, second, third, v[2], v[3], v[0], v[1]),
        substituted_column(first, second, third, v[3], v[0], v[1], v[2]),
    ]
}

// AddRoundKey.
pub fn add_key(expanded: &[u8; 240], round: usize, v: [u32; 4]) -> [u32; 4]
    requires { round < 15 }
    ensures { state_from result ≡ add_round_key expanded.now round (state_from v) }
{
    let at = 16 * round;
    [
        v[0] ^ word_at(expanded, at),
        v[1] ^ word_at(expanded, at + 4),
        v[2] ^ word_at(expanded, at + 8),
        v[3] ^ word_at(expanded, at + 12),
    ]
}
