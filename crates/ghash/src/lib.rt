// SP 800-38D, 6.3 and 6.4: the product of two blocks, and GHASH over the string that 7.1, step 5, makes of additional data and a ciphertext.
#![tactic(auto)]

mod product;

ghost use Rattle.std.specs.Prelude.{◌≡◌, ℕ, ◌%◌, ◌^◌, length};
ghost use Rattle.block.specs.Halves.{value};
ghost use Rattle.block.specs.Lengths.{len, blocks};
ghost use Rattle.ghash.specs.Ghash.{ghash_from, ghash};
ghost use Rattle.ghash.specs.Input.{hash_input};
ghost use Rattle.ghash.specs.Table.{IsTableOf};

use block::{Block, load, xor};
use product::{multiply, table};

// Step 3 from Y = y on, over the blocks of s, the last one filled with zeros; t is the table of the hash subkey. A string that is made of
// parts is hashed part by part, so it need not be copied together.
fn hash_onto(y: Block, s: &[u8], t: &[u64; 32]) -> Block
    ensures { (h : ℕ) → IsTableOf h t.now → value result ≡ ghash_from h (blocks (length s.now)) (value y) s.now }
{
    let mut z = y;
    for piece in s.chunks(16) {
        z = multiply(xor(z, load(piece, 0)), t);
    }
    z
}

// [len(s)]_64: the bits above 64 fall away.
fn length_in_bits(s: &[u8]) -> u64
    ensures { result ≡ len s.now % 2 ^ 64 }
{
    s.len() as u64 % 0x2000_0000_0000_0000 * 8
}

// GHASH under the hash subkey h. It goes on from the data to the text and to the last block, which holds the two lengths in bits.
pub fn hash(h: Block, additional: &[u8], text: &[u8]) -> Block
    ensures { value result ≡ ghash (value h) (hash_input additional.now text.now) }
{
    let t = table(h);
    let zero = Block { hi: 0, lo: 0 };
    let y = hash_onto(zero, additional, &t);
    let z = hash_onto(y, text, &t);
    let lengths = Block {
        hi: length_in_bits(additional),
        lo: length_in_bits(text),
    };
    multiply(xor(z, lengths), &t)
}
