// FIPS 197, 5.1.1: SubBytes.
ghost use Rattle.std.specs.Prelude.{◌≡◌};
ghost use Rattle.octets.specs.Lists.{IsTable};
ghost use Rattle.substitution.specs.Sbox.{sbox};
ghost use Rattle.cipher.specs.SubBytes.{sub_bytes};

use substitution::substituted;

pub(crate) fn sub_bytes(table: &[u8; 256], s: [u8; 16]) -> [u8; 16]
    requires { IsTable 256 sbox table.now }
    ensures { result ≡ sub_bytes s }
{
    let mut out = [0u8; 16];
    for i in 0..16 {
        out[i] = substituted(table, s[i]);
    }
    out
}
