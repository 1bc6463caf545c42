// FIPS 197, 3.5: a state as its four columns, each a word of 32 bits with row 0 highest.
#![tactic(auto)]

ghost use Rattle.std.specs.Prelude.{◌≡◌, [], ◌∷◌, ◌+◌, ◌≤◌, length};
ghost use Rattle.octets.specs.Lists.{octet, part};
ghost use Rattle.octets.specs.Xor.{xors};
ghost use Rattle.columns.specs.Columns.{Column, state_from};

// The word that has these octets.
pub fn joined(a: u8, b: u8, c: u8, d: u8) -> u32
    ensures { Column result (λ i. octet (a ∷ b ∷ c ∷ d ∷ []) i) }
{
    u32::from_be_bytes([a, b, c, d])
}

// The word at a place of s, all of it inside.
pub fn word_at(s: &[u8], at: usize) -> u32
    requires { at + 4 ≤ length s.now }
    ensures { Column result (λ i. octet s.now (at + i)) }
{
    joined(s[at], s[at + 1], s[at + 2], s[at + 3])
}

// The four words of the block at a place of s, all of it inside.
pub fn words_at(s: &[u8], at: usize) -> [u32; 4]
    requires { at + 16 ≤ length s.now }
    ensures { state_from result ≡ part at 16 s.now }
{
    [
        word_at(s, at),
        word_at(s, at + 4),
        word_at(s, at + 8),
        word_at(s, at + 12),
    ]
}

// The sum of two blocks.
pub fn sum(v: [u32; 4], w: [u32; 4]) -> [u32; 4]
    ensures { state_from result ≡ xors 16 (state_from v) (state_from w) }
{
    [v[0] ^ w[0], v[1] ^ w[1], v[2] ^ w[2], v[3] ^ w[3]]
}

// A block's four words.
pub fn words_of(block: [u8; 16]) -> [u32; 4]
    ensures { state_from result ≡ block }
{
    words_at(&block, 0)
}

// The octets of a block's four words.
pub fn octets_of(v: [u32; 4]) -> [u8; 16]
    ensures { result ≡ state_from v }
{
    let a = v[0].to_be_bytes();
    let b = v[1].to_be_bytes();
    let c = v[2].to_be_bytes();
    let d = v[3].to_be_bytes();
    [
        a[0], a[1], a[2], a[3], b[0], b[1], b[2], b[3], c[0], c[1], c[2], c[3], d[0], d[1], d[2],
        d[3],
    ]
}
