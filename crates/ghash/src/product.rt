// SP 800-38D, 6.3: the product of two blocks. Algorithm 1 goes bit by bit; a product with the hash subkey H, of which each block of text
// needs one, goes four bits at a time by a table of H that is made once.
ghost use Rattle.std.specs.Prelude.{◌≡◌, ℕ, ◌+◌, ◌*◌, ◌/◌, ◌%◌, ◌^◌, ◌≤◌, ◌<◌};
ghost use Rattle.octets.specs.Xor.{◌⊕◌};
ghost use Rattle.ghash.specs.Product.{next_v, product_rounds, ◌•◌};
ghost use Rattle.block.specs.Halves.{value};
ghost use Rattle.ghash.specs.Partway.{Partway};
ghost use Rattle.ghash.specs.Table.{nexts, entry, IsTableOf};

use block::{Block, xor};

// v if the bit is 1, and 0 if it is 0, with no branch.
fn times(bit: u64, v: Block) -> Block
    requires { bit < 2 }
    ensures { value result ≡ bit * value v }
{
    Block {
        hi: bit * v.hi,
        lo: bit * v.lo,
    }
}

fn next_v(v: Block) -> Block
    ensures { value result ≡ next_v (value v) }
{
    Block {
        hi: (v.hi / 2) ^ (v.lo % 2 * 0xe100_0000_0000_0000),
        lo: v.lo / 2 + v.hi % 2 * 0x8000_0000_0000_0000,
    }
}

// The last four rounds of Algorithm 1 for the bits of n, from Z = 0, with V and the three that follow it given.
fn four_rounds(n: u64, v: Block, second: Block, third: Block, fourth: Block) -> Block
    requires { (value second ≡ next_v (value v)) × (value third ≡ next_v (value second)) × (value fourth ≡ next_v (value third)) }
    ensures { value result ≡ product_rounds 4 n 0 (value v) }
{
    xor(
        xor(times(n / 8 % 2, v), times(n / 4 % 2, second)),
        xor(times(n / 2 % 2, third), times(n % 2, fourth)),
    )
}

// Entry n stands in the words 2n and 2n + 1.
pub(crate) fn table(h: Block) -> [u64; 32]
    ensures { IsTableOf (value h) result }
{
    let second = next_v(h);
    let third = next_v(second);
    let fourth = next_v(third);
    let mut t = [0u64; 32];
    for n in 0..16 {
        let entry = four_rounds(n as u64, h, second, third, fourth);
        t[n * 2] = entry.hi;
        t[n * 2 + 1] = entry.lo;
    }
    t
}

// A block moved down four places, with four other bits at its top.
fn moved_down(top: u64, z: Block) -> Block
    requires { top < 16 }
    ensures { value result ≡ value z / 16 ⊕ top * 2 ^ 124 }
{
    Block {
        hi: z.hi / 16 + top * 0x1000_0000_0000_0000,
        lo: z.lo / 16 + z.hi % 16 * 0x1000_0000_0000_0000,
    }
}

// The next V 64 times over. The 64 bits that are shifted out come back as their products with R: its first octet 11100001 has bits at the
// weights 2^7, 2^6, 2^5 and 2^0.
fn half_next(z: Block) -> Block
    ensures { value result ≡ nexts 64 (value z) }
{
    let n = z.lo;
    let back = (n % 2 * 0x8000_0000_0000_0000)
        ^ (n % 4 * 0x4000_0000_0000_0000)
        ^ (n % 128 * 0x0200_0000_0000_0000);
    Block {
        hi: n ^ (n / 2) ^ (n / 4) ^ (n / 128),
        lo: z.hi ^ back,
    }
}

// The four bits of a half at the weights 2^k to 2^(k + 3).
fn four_bits(half: u64, k: u64) -> usize
    requires { k < 64 }
    ensures { (result ≡ half / 2 ^ k % 16) × (result < 16) }
{
    (half >> k) as usize % 16
}

// Entry n.
fn entry_at(t: &[u64; 32], n: usize) -> Block
    requires { n < 16 }
    ensures { value result ≡ entry t.now n }
{
    Block {
        hi: t[n * 2],
        lo: t[n * 2 + 1],
    }
}

// The block whose high half this is, with a low one of zeros.
fn raised(half: u64) -> Block
    ensures { (value result ≡ half * 2 ^ 64) × (half < 2 ^ 64) }
{
    Block { hi: half, lo: 0 }
}

// A product before it is reduced: what is shifted out of `high` is kept in `low`.
#[derive(Clone, Copy)]
struct Unreduced {
    high: Block,
    low: Block,
}

// The four bits of each half of x at the weights 2^k to 2^(k + 3).
fn four_more(z: Unreduced, x: Block, k: u64, t: &[u64; 32]) -> Unreduced
    requires { k ≤ 60 }
    ensures { (h : ℕ) → IsTableOf h t.now → Partway h x.hi x.lo k (value z.high) (value z.low) → Partway h x.hi x.lo (k + 4) (value result.high) (value result.low) }
{
    let high = z.high;
    let first = entry_at(t, four_bits(x.hi, k));
    let second = entry_at(t, four_bits(x.lo, k));
    let low = xor(moved_down(high.lo % 16, z.low), raised(second.lo));
    let added = xor(first, moved_down(0, high));
    Unreduced {
        high: xor(
            added,
            Block {
                hi: 0,
                lo: second.hi,
            },
        ),
        low,
    }
}

// A block moved down 32 places, with 32 other bits at its top.
// Not one function with `moved_down`: for any number of places it would take masks and shifts by 64 less them, where these divide by numbers.
fn moved_far_down(top: u64, z: Block) -> Block
    requires { top < 2 ^ 32 }
    ensures { value result ≡ value z / 2 ^ 32 ⊕ top * 2 ^ 96 }
{
    Block {
        hi: z.hi / 0x1_0000_0000 + top * 0x1_0000_0000,
        lo: z.lo / 0x1_0000_0000 + z.hi % 0x1_0000_0000 * 0x1_0000_0000,
    }
}

// The product of 32 bits moved down 32 places, and added to that of the 32 bits above them.
fn joined(upper: Unreduced, lower: Unreduced) -> Unreduced
    ensures { (value result.high ≡ value upper.high ⊕ value lower.high / 2 ^ 32) × (value result.low ≡ value upper.low ⊕ (value lower.low / 2 ^ 32 ⊕ value lower.high % 2 ^ 32 * 2 ^ 96)) }
{
    let high = lower.high;
    Unreduced {
        high: xor(upper.high, moved_far_down(0, high)),
        low: xor(
            upper.low,
            moved_far_down(high.lo % 0x1_0000_0000, lower.low),
        ),
    }
}

// The product of x with the block that t is the table of. Both halves of x go at once, and nothing is reduced before the end. The low 32 bits
// of the halves and the high ones go each by themselves, so that a processor need not wait for one with the other.
pub(crate) fn multiply(x: Block, t: &[u64; 32]) -> Block
    ensures { (h : ℕ) → IsTableOf h t.now → value result ≡ value x • h }
{
    let above = Block {
        hi: x.hi / 0x1_0000_0000,
        lo: x.lo / 0x1_0000_0000,
    };
    let mut lower = Unreduced {
        high: Block { hi: 0, lo: 0 },
        low: Block { hi: 0, lo: 0 },
    };
    let mut upper = Unreduced {
        high: Block { hi: 0, lo: 0 },
        low: Block { hi: 0, lo: 0 },
    };
    for k in (0..32).step_by(4) {
        lower = four_more(lower, x, k, t);
        upper = four_more(upper, above, k, t);
    }
    let z = joined(upper, lower);
    let high = z.high;
    let low = z.low;
    xor(high, half_next(half_next(low)))
}
