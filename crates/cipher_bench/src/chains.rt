// Chains of the cipher: each call works on what the one before gave, so none can be left out.

// Encrypts a block of zeros, then what that gave, and so on.
pub(crate) fn blocks(key: [u8; 32], count: u64) -> [u8; 16] {
    let expanded = cipher::expand_key(key);
    (0..count).fold([0; 16], |block, _| cipher::encrypt_block(&expanded, block))
}

// The last eight words of an expansion.
fn last_words(expanded: &[u8; 240]) -> [u8; 32] {
    let mut words = [0u8; 32];
    words.copy_from_slice(&expanded[208..]);
    words
}

// Expands a key, then the last eight words of that as a key, and so on.
pub(crate) fn keys(key: [u8; 32], count: u64) -> [u8; 32] {
    (0..count).fold(key, |last, _| last_words(&cipher::expand_key(last)))
}
