// Entries that are sealed.
ghost use Rattle.std.specs.Prelude.{◌≡◌, true};
ghost use Rattle.vector_lines.specs.Spelled.{text_in};
ghost use Rattle.gcm_entries.specs.Entry.{Published, SealedFrom, SealedAs};

use crate::entries::{ADDITIONAL, CIPHERTEXT, PLAINTEXT, TAG, iv};
use lines::front;
use vector_lines::{is_field, key, read_field};

// Whether the ciphertext and the tag are the published ones.
fn is_published(line: &[u8], ciphertext: &[u8], sealed: Result<[u8; 16], gcm::Refusal>) -> bool
    ensures { result ≡ true → Published line.now ciphertext.now sealed }
{
    let Ok(tag) = sealed else {
        return false;
    };
    is_field(line, CIPHERTEXT, ciphertext) & is_field(line, TAG, &tag)
}

fn is_sealed_by_octets(line: &[u8], additional: &[u8], plain: &[u8]) -> bool
    ensures { result ≡ true → SealedFrom line.now additional.now plain.now }
{
    let mut out = [0u8; 64];
    let sealed = gcm::seal(key(line), iv(line), additional, plain, &mut out);
    is_published(line, front(&out, plain.len()), sealed)
}

fn is_sealed_by_words(line: &[u8], additional: &[u8], plain: &[u8]) -> bool {
    let tables = word_tables::word_tables();
    let expanded = cipher::expand_key(key(line));
    let mut out = [0u8; 64];
    let sealed = gcm::seal_under(&tables, &expanded, iv(line), additional, plain, &mut out);
    is_published(line, front(&out, plain.len()), sealed)
}

fn is_sealed_with(line: &[u8], additional: &[u8]) -> bool
    ensures { result ≡ true → SealedFrom line.now additional.now (text_in 64 2 line.now) }
{
    let mut room = [0u8; 64];
    let count = read_field(line, PLAINTEXT, &mut room);
    let plain = front(&room, count);
    is_sealed_by_octets(line, additional, plain) & is_sealed_by_words(line, additional, plain)
}

// Whether both engines seal an entry as published.
pub fn is_sealed(line: &[u8]) -> bool
    ensures { result ≡ true → SealedAs line.now }
{
    let mut additional = [0u8; 96];
    let count = read_field(line, ADDITIONAL, &mut additional);
    is_sealed_with(line, front(&additional, count))
}
