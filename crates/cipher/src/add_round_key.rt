// FIPS 197, 5.1.4: AddRoundKey.
ghost use Rattle.std.specs.Prelude.{◌≡◌, ◌<◌};
ghost use Rattle.cipher.specs.AddRoundKey.{add_round_key};

pub(crate) fn add_round_key(expanded: &[u8; 240], round: usize, s: [u8; 16]) -> [u8; 16]
    requires { round < 15 }
    ensures { result ≡ add_round_key expanded.now round s }
{
    let mut out = [0u8; 16];
    for i in 0..16 {
        out[i] = s[i] ^ expanded[16 * round + i];
    }
    out
}
