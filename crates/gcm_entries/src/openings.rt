// Entries that are opened.
ghost use Rattle.std.specs.Prelude.{◌≡◌, true};
ghost use Rattle.vector_lines.specs.Spelled.{text_in};
ghost use Rattle.gcm_entries.specs.Entry.{OpenedFrom, OpenedAs};

use crate::entries::{ADDITIONAL, CIPHERTEXT, PLAINTEXT, TAG, iv};
use lines::front;
use vector_lines::{is_field, key, octets, read_field};

fn is_opened_by_octets(line: &[u8], additional: &[u8], ciphertext: &[u8]) -> bool
    ensures { result ≡ true → OpenedFrom line.now additional.now ciphertext.now }
{
    let mut out = [0u8; 64];
    let tag = octets(line, TAG);
    let opened = gcm::open(key(line), iv(line), additional, ciphertext, tag, &mut out);
    opened.is_ok() && is_field(line, PLAINTEXT, front(&out, ciphertext.len()))
}

fn is_checked_by_words(line: &[u8], additional: &[u8], ciphertext: &[u8]) -> bool {
    let tables = word_tables::word_tables();
    let expanded = cipher::expand_key(key(line));
    let tag = octets(line, TAG);
    gcm::check_under(&tables, &expanded, iv(line), additional, ciphertext, tag).is_ok()
}

fn is_decrypted_by_words(line: &[u8], ciphertext: &[u8]) -> bool {
    let tables = word_tables::word_tables();
    let expanded = cipher::expand_key(key(line));
    let mut out = [0u8; 64];
    let decrypted = gcm::decrypt_under(&tables, &expanded, iv(line), ciphertext, &mut out);
    decrypted.is_ok() && is_field(line, PLAINTEXT, front(&out, ciphertext.len()))
}

fn is_opened_with(line: &[u8], additional: &[u8]) -> bool
    ensures { result ≡ true → OpenedFrom line.now additional.now (text_in 64 4 line.now) }
{
    let mut room = [0u8; 64];
    let count = read_field(line, CIPHERTEXT, &mut room);
    let ciphertext = front(&room, count);
    is_opened_by_octets(line, additional, ciphertext)
        & is_checked_by_words(line, additional, ciphertext)
        & is_decrypted_by_words(line, ciphertext)
}

// Whether both engines open an entry as published.
pub fn is_opened(line: &[u8]) -> bool
    ensures { result ≡ true → OpenedAs line.now }
{
    let mut additional = [0u8; 96];
    let count = read_field(line, ADDITIONAL, &mut additional);
    is_opened_with(line, front(&additional, count))
}
