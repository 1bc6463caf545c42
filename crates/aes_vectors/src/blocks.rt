// The vectors of AES-256.
use vector_lines::{is_empty, is_field, key, octets, spells};

// The words of an expanded key.
const WORDS: u64 = 60;

// Whether field 1 is word n of the expanded key. Behind the last word no key is expanded: that is most of what such a line would cost.
fn is_in_expanded_key(n: u64, line: &[u8]) -> bool {
    if n >= WORDS {
        return false;
    }
    let expanded = cipher::expand_key(key(line));
    let (words, _) = expanded.as_chunks::<4>();
    words
        .get(n as usize)
        .is_some_and(|word| is_field(line, 1, word))
}

// A line `KEY WORD`, the n-th of its file, with word n of the expanded key.
pub(crate) fn is_word(n: u64, line: &[u8]) -> bool {
    spells(line, 0, 32) & is_in_expanded_key(n, line) & is_empty(line, 2)
}

fn is_result(line: &[u8], block: [u8; 16]) -> bool {
    is_field(line, 2, &block)
}

// A line `KEY BLOCK RESULT`: both engines must give the result.
pub(crate) fn is_encryption(line: &[u8]) -> bool {
    let is_read = spells(line, 0, 32) & spells(line, 1, 16) & is_empty(line, 3);
    let by_octets = cipher::encrypt(key(line), octets(line, 1));
    let by_words = word_cipher::encrypt(key(line), octets(line, 1));
    is_read & is_result(line, by_octets) & is_result(line, by_words)
}
