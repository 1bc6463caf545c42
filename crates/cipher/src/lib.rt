// AES-256 (FIPS 197), an octet at a time. A block and a state are their sixteen octets in the order of the input (3.4).
// The expansion of a key serves any number of blocks: `encrypt_block(&expand_key(key), block)` is AES-256 of each.
#![tactic(auto)]

mod add_round_key;
mod mix_columns;
mod shift_rows;
mod sub_bytes;

ghost use Rattle.std.specs.Prelude.{◌≡◌, ◌<◌};
ghost use Rattle.octets.specs.Lists.{IsTable};
ghost use Rattle.substitution.specs.Sbox.{sbox};
ghost use Rattle.cipher.specs.Cipher.{round, cipher, aes256};

use add_round_key::add_round_key;
pub use key_schedule::expand_key;
use mix_columns::mix_columns;
use shift_rows::shift_rows;
use sub_bytes::sub_bytes;
use substitution::substitution_table;

// One of the rounds 1 to 13 of figure 5.
fn full_round(table: &[u8; 256], expanded: &[u8; 240], n: usize, s: [u8; 16]) -> [u8; 16]
    requires table { IsTable 256 sbox table.now }
    requires n_bound { n < 15 }
    ensures { result ≡ round expanded.now n s }
{
    add_round_key(expanded, n, mix_columns(shift_rows(sub_bytes(table, s))))
}

// The block under an expanded key (5.1).
pub fn encrypt_block(expanded: &[u8; 240], block: [u8; 16]) -> [u8; 16]
    ensures { result ≡ cipher expanded.now block }
{
    let table = substitution_table();
    let mut s = add_round_key(expanded, 0, block);
    for n in 1..14 {
        // The check does not cover a call whose result goes straight into an array that is there already.
        let next = full_round(&table, expanded, n, s);
        s = next;
    }
    add_round_key(expanded, 14, shift_rows(sub_bytes(&table, s)))
}

// The block under a key.
pub fn encrypt(key: [u8; 32], block: [u8; 16]) -> [u8; 16]
    ensures { result ≡ aes256 key block }
{
    let expanded = expand_key(key);
    encrypt_block(&expanded, block)
}
