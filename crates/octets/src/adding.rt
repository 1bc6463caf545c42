// Exclusive-or of arrays, octet by octet.
ghost use Rattle.std.specs.Prelude.{◌≡◌};
ghost use Rattle.octets.specs.Xor.{xors};

pub fn xors<const N: usize>(a: [u8; N], b: [u8; N]) -> [u8; N]
    ensures { result ≡ xors N a.entry b.entry }
{
    let mut out = [0u8; N];
    for i in 0..N {
        out[i] = a[i] ^ b[i];
    }
    out
}
