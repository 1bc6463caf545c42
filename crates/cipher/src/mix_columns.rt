// FIPS 197, 5.1.3: MixColumns.
ghost use Rattle.std.specs.Prelude.{◌≡◌, [], ◌∷◌};
ghost use Rattle.substitution.specs.Field.{◌⊗◌};
ghost use Rattle.cipher.specs.MixColumns.{mixer, mix_columns};

use substitution::times_x;

// One column, by the rows of (5.6); {03} times an octet is the octet and {02} times it.
fn mix_column(a: u8, b: u8, c: u8, d: u8) -> [u8; 4]
    ensures { result ≡ mixer ⊗ (a ∷ b ∷ c ∷ d ∷ []) }
{
    let a2 = times_x(a);
    let b2 = times_x(b);
    let c2 = times_x(c);
    let d2 = times_x(d);
    [
        a2 ^ (b ^ b2) ^ c ^ d,
        a ^ b2 ^ (c ^ c2) ^ d,
        a ^ b ^ c2 ^ (d ^ d2),
        (a ^ a2) ^ b ^ c ^ d2,
    ]
}

pub(crate) fn mix_columns(s: [u8; 16]) -> [u8; 16]
    ensures { result ≡ mix_columns s }
{
    let a = mix_column(s[0], s[1], s[2], s[3]);
    let b = mix_column(s[4], s[5], s[6], s[7]);
    let c = mix_column(s[8], s[9], s[10], s[11]);
    let d = mix_column(s[12], s[13], s[14], s[15]);
    [
        a[0], a[1], a[2], a[3], b[0], b[1], b[2], b[3], c[0], c[1], c[2], c[3], d[0], d[1], d[2],
        d[3],
    ]
}
