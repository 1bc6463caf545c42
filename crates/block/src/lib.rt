// SP 800-38D, 6.1: a block of 128 bits in two halves of 64, and its way from octets and back.
#![tactic(auto)]

ghost use Rattle.std.specs.Prelude.{◌≡◌, ◌+◌, ◌*◌, ◌^◌, ◌≤◌, length, drop};
ghost use Rattle.octets.specs.Numbers.{number, bytes};
ghost use Rattle.octets.specs.Xor.{◌⊕◌};
ghost use Rattle.block.specs.Halves.{value};

use octets::octet_behind;

// The first bit of the block is the highest of `hi`.
#[derive(Clone, Copy)]
pub struct Block {
    pub hi: u64,
    pub lo: u64,
}

pub fn xor(a: Block, b: Block) -> Block
    ensures { value result ≡ value a ⊕ value b }
{
    Block {
        hi: a.hi ^ b.hi,
        lo: a.lo ^ b.lo,
    }
}

// The eight octets from `at` on.
fn word(s: &[u8], at: usize) -> u64
    ensures { result ≡ number 8 (drop at s.now) }
{
    let mut w: u64 = 0;
    for k in 0..8 {
        w = w * 256 + octet_behind(s, at, k) as u64;
    }
    w
}

// The eight octets from `at` on, all of them inside: a whole block is read with no test for each octet. They are joined by fours: of eight at
// once the compiler makes no load that is wider than an octet.
fn word_inside(s: &[u8], at: usize) -> u64
    requires { at + 8 ≤ length s.now }
    ensures { result ≡ number 8 (drop at s.now) }
{
    let high = u32::from_be_bytes([s[at], s[at + 1], s[at + 2], s[at + 3]]);
    let low = u32::from_be_bytes([s[at + 4], s[at + 5], s[at + 6], s[at + 7]]);
    high as u64 * 0x1_0000_0000 + low as u64
}

// The sixteen octets from `at` on. Past the end they are 0: a last block is filled with zeros where it is read. Of such a block the lower half is
// read first: were both ways to begin with the octet at `at`, the compiler would read it before it parts them, and the first half octet by octet.
pub fn load(s: &[u8], at: usize) -> Block
    ensures { value result ≡ number 16 (drop at s.now) }
{
    if s.len() <= at {
        return Block { hi: 0, lo: 0 };
    }
    if 16 <= s.len() - at {
        return Block {
            hi: word_inside(s, at),
            lo: word_inside(s, at + 8),
        };
    }
    let lo = word(s, at + 8);
    Block {
        hi: word(s, at),
        lo,
    }
}

pub fn store(b: Block) -> [u8; 16]
    ensures { result ≡ bytes 16 (value b) }
{
    [
        ((b.hi >> 56) % 256) as u8,
        ((b.hi >> 48) % 256) as u8,
        ((b.hi >> 40) % 256) as u8,
        ((b.hi >> 32) % 256) as u8,
        ((b.hi >> 24) % 256) as u8,
        ((b.hi >> 16) % 256) as u8,
        ((b.hi >> 8) % 256) as u8,
        (b.hi % 256) as u8,
        ((b.lo >> 56) % 256) as u8,
        ((b.lo >> 48) % 256) as u8,
        ((b.lo >> 40) % 256) as u8,
        ((b.lo >> 32) % 256) as u8,
        ((b.lo >> 24) % 256) as u8,
        ((b.lo >> 16) % 256) as u8,
        ((b.lo >> 8) % 256) as u8,
        (b.lo % 256) as u8,
    ]
}
