// The two engines of AES-256 behind one call: that on words (crate `word_cipher`) for a caller that lends its tables, and that on octets (crate
// `cipher`) for one that lends none. A layer above passes on what it is lent, and its contract says nothing of it: the block is the same.
#![tactic(auto)]

ghost use Rattle.std.specs.Prelude.{◌≡◌, true};
ghost use Rattle.cipher.specs.Cipher.{cipher};
ghost use Rattle.columns.specs.Columns.{state_from};
ghost use Rattle.engines.specs.Lent.{Lent};

use columns::{octets_of, words_of};
use octets::same_block;

// The block under an expanded key, by the engine for which the tables are. A block is its four words.
pub fn encrypt_words(tables: &[u32], expanded: &[u8; 240], block: [u32; 4]) -> [u32; 4]
    requires { Lent tables.now }
    ensures { state_from result ≡ cipher expanded.now (state_from block) }
{
    if tables.len() == 0 {
        return words_of(cipher::encrypt_block(expanded, octets_of(block)));
    }
    word_cipher::encrypt_words(tables, expanded, block)
}

// The same of a block of octets.
pub fn encrypt_block(tables: &[u32], expanded: &[u8; 240], block: [u8; 16]) -> [u8; 16]
    requires { Lent tables.now }
    ensures { result ≡ cipher expanded.now block }
{
    octets_of(encrypt_words(tables, expanded, words_of(block)))
}

// Both engines give the same block, for every key and block: the answer is always yes.
pub fn engines_agree(key: [u8; 32], block: [u8; 16]) -> bool
    ensures { result ≡ true }
{
    same_block(
        cipher::encrypt(key, block),
        word_cipher::encrypt(key, block),
    )
}
