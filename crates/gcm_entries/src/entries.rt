// The fields of an entry.
ghost use Rattle.std.specs.Prelude.{◌≡◌};
ghost use Rattle.vector_lines.specs.Spelled.{octets_in};
ghost use Rattle.gcm_entries.specs.Entry.{entry_in};

use vector_lines::{is_empty, is_whole, octets, spells};

pub(crate) const PLAINTEXT: usize = 2;

pub const ADDITIONAL: usize = 3;

pub const CIPHERTEXT: usize = 4;

pub const TAG: usize = 5;

pub fn is_entry(line: &[u8]) -> bool
    ensures { result ≡ entry_in line.now }
{
    let is_setup = spells(line, 0, 32) & spells(line, 1, 12);
    let is_text = is_whole(line, PLAINTEXT) & is_whole(line, ADDITIONAL);
    let is_result = is_whole(line, CIPHERTEXT) & spells(line, TAG, 16) & is_empty(line, 6);
    is_setup & is_text & is_result
}

pub fn iv(line: &[u8]) -> [u8; 12]
    ensures { result ≡ octets_in 12 1 line.now }
{
    octets(line, 1)
}
