// NIST SP 800-38B, 6.1: how a subkey is made of the block before it.
#![tactic(auto)]

ghost use Rattle.std.specs.Prelude.{◌≡◌};
ghost use Rattle.subkeys.specs.Subkeys.{shifted, next_subkey};

// X << 1. An octet's own first bit is dropped before the octet is doubled, so nothing exceeds an octet.
fn shifted(x: [u8; 16]) -> [u8; 16]
    ensures { result ≡ shifted x }
{
    let mut out = [0u8; 16];
    for i in 0..15 {
        out[i] = x[i] % 128 * 2 + x[i + 1] / 128;
    }
    out[15] = x[15] % 128 * 2;
    out
}

// Steps 2 and 3. R_128, of which only the last octet is not zero, is added as many times as the first bit of X says: no branch depends on it.
pub fn next_subkey(x: [u8; 16]) -> [u8; 16]
    ensures { result ≡ next_subkey x }
{
    let mut out = shifted(x);
    out[15] = out[15] ^ (x[0] / 128 * 0x87);
    out
}
