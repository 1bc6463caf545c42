// GCM (SP 800-38D) with AES-256, an IV of 96 bits and a tag of 128 bits. What a call answers and leaves in its output is given, from the
// values at its entry, by a definition of specs/Calls. A caller that uses a key more than once expands it once, and takes the functions under
// an expanded key; there it also says which engine is to make the blocks, by the tables that it lends (crate `engines`). `decrypt` looks at no
// tag: it is for a caller that `check` has not refused.
#![tactic(auto)]

mod steps;

ghost use Rattle.std.specs.Prelude.{◌≡◌};
ghost use Rattle.engines.specs.Lent.{Lent};
ghost use Rattle.gcm.specs.Lengths.{text_too_long, too_long};
ghost use Rattle.gcm.specs.Calls.{call, sealed_under, sealed, checked_under, checked, decrypted_under, decrypted, opened};

use cipher::expand_key;
use steps::{crypt, make_tag, tag_is};

// 5.2.1.1, in octets: a text has at most (2^39 - 256) / 8.
const MOST_TEXT: usize = 0xf_ffff_ffe0;

// 5.2.1.1, in octets: additional data has at most (2^64 - 1) / 8, rounded down.
const MOST_ADDITIONAL: usize = 0x1fff_ffff_ffff_ffff;

// Why a call refuses. Of several reasons the first in this order is given.
#[derive(Clone, Copy, PartialEq, Eq)]
pub enum Refusal {
    // A length that the standard does not allow.
    TooLong,
    // A tag that is not the ciphertext's.
    WrongTag,
    // An output that is shorter than the text.
    NoRoom,
}

fn text_too_long(text: &[u8]) -> bool
    ensures { result ≡ text_too_long text.now }
{
    MOST_TEXT < text.len()
}

fn too_long(additional: &[u8], text: &[u8]) -> bool
    ensures { result ≡ too_long additional.now text.now }
{
    (MOST_ADDITIONAL < additional.len()) | text_too_long(text)
}

// 7.1: the ciphertext to the front of out, and the tag.
pub fn seal_under(
    tables: &[u32],
    expanded: &[u8; 240],
    iv: [u8; 12],
    additional: &[u8],
    plain: &[u8],
    out: &mut [u8],
) -> Result<[u8; 16], Refusal>
    requires { Lent tables.now }
    ensures { call result out.new ≡ sealed_under expanded.now iv additional.now plain.now out.old }
{
    if too_long(additional, plain) {
        return Err(Refusal::TooLong);
    }
    let n = plain.len();
    if out.len() < n {
        return Err(Refusal::NoRoom);
    }
    crypt(tables, expanded, iv, plain, out);
    Ok(make_tag(tables, expanded, iv, additional, &out[..n]))
}

pub fn seal(
    key: [u8; 32],
    iv: [u8; 12],
    additional: &[u8],
    plain: &[u8],
    out: &mut [u8],
) -> Result<[u8; 16], Refusal>
    ensures { call result out.new ≡ sealed key iv additional.now plain.now out.old }
{
    seal_under(&[], &expand_key(key), iv, additional, plain, out)
}

// 7.2 but for step 4: whether the tag is the ciphertext's.
pub fn check_under(
    tables: &[u32],
    expanded: &[u8; 240],
    iv: [u8; 12],
    additional: &[u8],
    ciphertext: &[u8],
    tag: [u8; 16],
) -> Result<(), Refusal>
    requires { Lent tables.now }
    ensures { result ≡ checked_under expanded.now iv additional.now ciphertext.now tag }
{
    if too_long(additional, ciphertext) {
        return Err(Refusal::TooLong);
    }
    if tag_is(tables, expanded, iv, additional, ciphertext, tag) {
        Ok(())
    } else {
        Err(Refusal::WrongTag)
    }
}

pub fn check(
    key: [u8; 32],
    iv: [u8; 12],
    additional: &[u8],
    ciphertext: &[u8],
    tag: [u8; 16],
) -> Result<(), Refusal>
    ensures { result ≡ checked key iv additional.now ciphertext.now tag }
{
    check_under(&[], &expand_key(key), iv, additional, ciphertext, tag)
}

// 7.2, step 4: the plaintext to the front of out, for a caller that has seen the tag to be right.
pub fn decrypt_under(
    tables: &[u32],
    expanded: &[u8; 240],
    iv: [u8; 12],
    ciphertext: &[u8],
    out: &mut [u8],
) -> Result<(), Refusal>
    requires { Lent tables.now }
    ensures { call result out.new ≡ decrypted_under expanded.now iv ciphertext.now out.old }
{
    if text_too_long(ciphertext) {
        return Err(Refusal::TooLong);
    }
    if out.len() < ciphertext.len() {
        return Err(Refusal::NoRoom);
    }
    crypt(tables, expanded, iv, ciphertext, out);
    Ok(())
}

pub fn decrypt(
    key: [u8; 32],
    iv: [u8; 12],
    ciphertext: &[u8],
    out: &mut [u8],
) -> Result<(), Refusal>
    ensures { call result out.new ≡ decrypted key iv ciphertext.now out.old }
{
    decrypt_under(&[], &expand_key(key), iv, ciphertext, out)
}

// 7.2: the plaintext to the front of out if the tag is right; if it is not, out stays as it was.
pub fn open(
    key: [u8; 32],
    iv: [u8; 12],
    additional: &[u8],
    ciphertext: &[u8],
    tag: [u8; 16],
    out: &mut [u8],
) -> Result<(), Refusal>
    ensures { call result out.new ≡ opened key iv additional.now ciphertext.now tag out.old }
{
    let expanded = expand_key(key);
    check_under(&[], &expanded, iv, additional, ciphertext, tag)?;
    decrypt_under(&[], &expanded, iv, ciphertext, out)
}
