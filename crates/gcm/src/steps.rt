// SP 800-38D, 7.1 and 7.2: the steps of Algorithms 4 and 5, under an expanded key.
ghost use Rattle.std.specs.Prelude.{◌≡◌};
ghost use Rattle.octets.specs.Output.{fronted};
ghost use Rattle.octets.specs.Same.{same};
ghost use Rattle.block.specs.Halves.{value};
ghost use Rattle.engines.specs.Lent.{Lent};
ghost use Rattle.gctr.specs.Increment.{inc32};
ghost use Rattle.gctr.specs.Gctr.{gctr};
ghost use Rattle.gcm.specs.Encryption.{j0, tag_under};

use block::{Block, load, store};
use gctr::{apply, encipher, increment};
use ghash::hash;

// J_0 = IV || 0^31 || 1: the IV is loaded with zeros behind it.
fn first_counter(iv: [u8; 12]) -> Block
    ensures { value result ≡ j0 iv }
{
    let b = load(&iv, 0);
    Block {
        hi: b.hi,
        lo: b.lo + 1,
    }
}

// GCTR from inc32(J_0) on, to the front of out: 7.1, step 3, makes the ciphertext so, and 7.2, step 4, the plaintext.
pub(crate) fn crypt(tables: &[u32], expanded: &[u8; 240], iv: [u8; 12], src: &[u8], out: &mut [u8])
    requires { Lent tables.now }
    ensures { out.new ≡ fronted (gctr expanded.now (inc32 (j0 iv)) src.now) out.old }
{
    let first = first_counter(iv);
    let next = increment(first);
    apply(tables, expanded, next, src, out);
}

// The tag of the additional data and the ciphertext.
pub(crate) fn make_tag(
    tables: &[u32],
    expanded: &[u8; 240],
    iv: [u8; 12],
    additional: &[u8],
    text: &[u8],
) -> [u8; 16]
    requires { Lent tables.now }
    ensures { result ≡ tag_under expanded.now iv additional.now text.now }
{
    let subkey = encipher(tables, expanded, Block { hi: 0, lo: 0 });
    let s = store(hash(load(&subkey, 0), additional, text));
    let mut out = [0u8; 16];
    apply(tables, expanded, first_counter(iv), &s, &mut out);
    out
}

// Whether the tag is that of the additional data and the ciphertext. All its octets are compared, whatever they hold.
pub(crate) fn tag_is(
    tables: &[u32],
    expanded: &[u8; 240],
    iv: [u8; 12],
    additional: &[u8],
    text: &[u8],
    given: [u8; 16],
) -> bool
    requires { Lent tables.now }
    ensures { result ≡ same (tag_under expanded.now iv additional.now text.now) given }
{
    octets::same_block(make_tag(tables, expanded, iv, additional, text), given)
}
