// CMAC (NIST SP 800-38B) with AES-256 and a MAC of 16 octets. A message is given as two parts that lie apart, a head and a body, and is
// never copied: each block is read from where it lies. A caller that uses a key more than once expands it once, and takes the functions under
// an expanded key; there it also says which engine is to make the blocks, by the tables that it lends (crate `engines`).
#![tactic(auto)]

ghost use Rattle.std.specs.Prelude.{◌≡◌, ◌++◌};
ghost use Rattle.octets.specs.Same.{same};
ghost use Rattle.engines.specs.Lent.{Lent};
ghost use Rattle.cmac.specs.Mac.{cmac_under, cmac};

use cipher::expand_key;
use columns::{octets_of, sum};
use engines::{encrypt_block, encrypt_words};
use message_blocks::{block_count, message_words};
use octets::same_block;
use subkeys::next_subkey;

// The MAC of the message (6.2). The subkeys come first, from the block of zeros under the cipher (6.1); after i turns `chained` has the words of
// C_i.
pub fn mac_under(tables: &[u32], expanded: &[u8; 240], head: &[u8], body: &[u8]) -> [u8; 16]
    requires { Lent tables.now }
    ensures { result ≡ cmac_under expanded.now (head.now ++ body.now) }
{
    let first = next_subkey(encrypt_block(tables, expanded, [0u8; 16]));
    let second = next_subkey(first);
    let count = block_count(head.len() + body.len());
    let mut chained = [0u32; 4];
    for i in 0..count {
        let block = message_words(first, second, head, body, i);
        // The check does not cover a call whose result goes straight into an array that is there already.
        let next = encrypt_words(tables, expanded, sum(chained, block));
        chained = next;
    }
    octets_of(chained)
}

pub fn mac(key: [u8; 32], head: &[u8], body: &[u8]) -> [u8; 16]
    ensures { result ≡ cmac key (head.now ++ body.now) }
{
    let expanded = expand_key(key);
    mac_under(&[], &expanded, head, body)
}

// Whether `mac` is the MAC of the message (6.3). All sixteen octets are compared.
pub fn check_under(
    tables: &[u32],
    expanded: &[u8; 240],
    head: &[u8],
    body: &[u8],
    mac: [u8; 16],
) -> bool
    requires { Lent tables.now }
    ensures { result ≡ same (cmac_under expanded.now (head.now ++ body.now)) mac }
{
    same_block(mac_under(tables, expanded, head, body), mac)
}

pub fn check(key: [u8; 32], head: &[u8], body: &[u8], mac: [u8; 16]) -> bool
    ensures { result ≡ same (cmac key (head.now ++ body.now)) mac }
{
    let expanded = expand_key(key);
    check_under(&[], &expanded, head, body, mac)
}
