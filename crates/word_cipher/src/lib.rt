// AES-256 (FIPS 197) on words of 32 bits: the same block as crate `cipher` gives, by tables of 4,096 octets, which a call takes once (crate
// `word_tables`) and lends for any number of blocks. A state is its four columns, each a word with row 0 highest.
#![tactic(auto)]

ghost use Rattle.std.specs.Prelude.{◌≡◌};
ghost use Rattle.word_tables.specs.Tables.{IsTables};
ghost use Rattle.cipher.specs.Cipher.{cipher, aes256};
ghost use Rattle.columns.specs.Columns.{state_from};
ghost use Rattle.word_rounds.specs.Apart.{AreTables};

use columns::{octets_of, words_of};
use key_schedule::expand_key;
use word_rounds::{add_key, mixed, rows_shifted};
use word_tables::word_tables;

// The block under an expanded key (5.1), with each table by itself: a lookup then has no place of a table to add, which is an instruction on
// processors other than x86-64. `last` is the last place of a table. The last round has no MixColumns.
fn encrypt_apart(
    first: &[u32],
    second: &[u32],
    third: &[u32],
    fourth: &[u32],
    last: u32,
    expanded: &[u8; 240],
    block: [u32; 4],
) -> [u32; 4]
    requires are_tables { AreTables first.now second.now third.now fourth.now }
    requires last_value { last ≡ 255 }
    ensures { state_from result ≡ cipher expanded.now (state_from block) }
{
    let mut s = add_key(expanded, 0, block);
    for n in 1..14 {
        // The check does not cover a call whose result goes straight into an array that is there already.
        let next = add_key(expanded, n, mixed(first, second, third, fourth, last, s));
        s = next;
    }
    add_key(expanded, 14, rows_shifted(first, second, third, s))
}

// The same, with the tables one behind the other. A block is its four words, so that a caller with one block after another need not take them
// apart in between.
pub fn encrypt_words(tables: &[u32], expanded: &[u8; 240], block: [u32; 4]) -> [u32; 4]
    requires { IsTables tables.now }
    ensures { state_from result ≡ cipher expanded.now (state_from block) }
{
    encrypt_apart(
        &tables[0..256],
        &tables[256..512],
        &tables[512..768],
        &tables[768..1024],
        (tables.len() / 4 - 1) as u32,
        expanded,
        block,
    )
}

// The block under a key.
pub fn encrypt(key: [u8; 32], block: [u8; 16]) -> [u8; 16]
    ensures { result ≡ aes256 key block }
{
    let tables = word_tables();
    let expanded = expand_key(key);
    octets_of(encrypt_words(&tables, &expanded, words_of(block)))
}
