// SP 800-38D, 6.2 and 6.5: the counter's increment, and GCTR, Algorithm 3, with AES-256 under an expanded key. The tables say which engine
// makes the blocks (crate `engines`).
#![tactic(auto)]

ghost use Rattle.std.specs.Prelude.{◌≡◌, min, ◌+◌, ◌-◌, ◌≤◌, length, drop};
ghost use Rattle.std.proofs.Math.Seq.{paste};
ghost use Rattle.octets.specs.Output.{fronted};
ghost use Rattle.octets.specs.Xor.{xors};
ghost use Rattle.block.specs.Halves.{value};
ghost use Rattle.engines.specs.Lent.{Lent};
ghost use Rattle.gctr.specs.Increment.{inc32};
ghost use Rattle.gctr.specs.Gctr.{ciph, gctr};

use block::{Block, store};
use engines::encrypt_block;

pub fn increment(b: Block) -> Block
    ensures { value result ≡ inc32 (value b) }
{
    Block {
        hi: b.hi,
        lo: b.lo / 0x1_0000_0000 * 0x1_0000_0000 + (b.lo % 0x1_0000_0000 + 1) % 0x1_0000_0000,
    }
}

// CIPH_K of a block, K given by its expansion.
pub fn encipher(tables: &[u32], expanded: &[u8; 240], b: Block) -> [u8; 16]
    requires { Lent tables.now }
    ensures { result ≡ ciph expanded.now (value b) }
{
    encrypt_block(tables, expanded, store(b))
}

// The sums of a block of src and of the stream. They are made before any is written, so that the compiler need not ask whether `src` and the
// output overlap.
fn sums(stream: [u8; 16], src: &[u8], at: usize) -> [u8; 16]
    requires { at + 16 ≤ length src.now }
    ensures { result ≡ xors 16 (drop at src.now) stream }
{
    let mut out = [0u8; 16];
    for j in 0..16 {
        out[j] = src[at + j] ^ stream[j];
    }
    out
}

// The n octets of src from a place on, each added to one of the stream, to the same places of out.
fn add_octets(stream: [u8; 16], src: &[u8], at: usize, n: usize, out: &mut [u8])
    requires { (n ≤ 16) × (at + n ≤ length src.now) × (length src.now ≤ length out.old) }
    ensures { out.new ≡ paste out.old at (xors 16 (drop at src.now) stream) n }
{
    for j in 0..n {
        out[at + j] = src[at + j] ^ stream[j];
    }
}

// The same for as many octets as a block has at most; how many. All but the last block are whole.
fn add_stream(stream: [u8; 16], src: &[u8], at: usize, out: &mut [u8]) -> usize
    requires at_in_bounds { at ≤ length src.now }
    requires src_in_bounds { length src.now ≤ length out.old }
    ensures { (result ≡ min 16 (length src.now - at)) × (out.new ≡ paste out.old at (xors 16 (drop at src.now) stream) result) }
{
    let n = src.len() - at;
    if 16 <= n {
        out[at..at + 16].copy_from_slice(&sums(stream, src, at));
        return 16;
    }
    add_octets(stream, src, at, n, out);
    n
}

// GCTR_K(ICB, X) for X = src, to the front of out, which stays as it was where it has no room: a block a turn.
pub fn apply(tables: &[u32], expanded: &[u8; 240], icb: Block, src: &[u8], out: &mut [u8])
    requires { Lent tables.now }
    ensures { out.new ≡ fronted (gctr expanded.now (value icb) src.now) out.old }
{
    if out.len() < src.len() {
        return;
    }
    let mut cb = icb;
    let mut at: usize = 0;
    // No `for`: how far a turn goes is what `add_stream` answers.
    while at < src.len() {
        at += add_stream(encipher(tables, expanded, cb), src, at, out);
        cb = increment(cb);
    }
}
