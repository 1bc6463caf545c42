// The examples of SP 800-38B, a line `KEY MESSAGE MAC` each.
use lines::{field, front, read_octets};
use vector_lines::{is_empty, is_field, is_whole, key, octets, spells};

const MAC: usize = 2;

fn is_mac(line: &[u8], head: &[u8], rest: &[u8]) -> bool {
    is_field(line, MAC, &cmac::mac(key(line), head, rest))
}

// The same by the engine on words.
fn is_mac_by_words(line: &[u8], head: &[u8], rest: &[u8]) -> bool {
    let tables = word_tables::word_tables();
    let expanded = cipher::expand_key(key(line));
    is_field(line, MAC, &cmac::mac_under(&tables, &expanded, head, rest))
}

// Whether the published MAC is told from one with a bit changed.
fn is_checked(line: &[u8], head: &[u8], rest: &[u8]) -> bool {
    let key = key(line);
    let published = octets(line, MAC);
    let mut other = published;
    other[head.len() % 16] ^= 1;
    cmac::check(key, head, rest, published) & !cmac::check(key, head, rest, other)
}

// Whether the message cut in two at `at` has the MAC.
fn is_mac_of_parts(line: &[u8], message: &[u8], at: usize) -> bool {
    let Some((head, rest)) = message.split_at_checked(at) else {
        return false;
    };
    is_mac(line, head, rest) & is_mac_by_words(line, head, rest) & is_checked(line, head, rest)
}

// A message is run cut at every place.
fn is_mac_of(line: &[u8], message: &[u8]) -> bool {
    (0..=message.len()).all(|at| is_mac_of_parts(line, message, at))
}

pub(crate) fn is_example(line: &[u8]) -> bool {
    let mut message = [0u8; 64];
    let count = read_octets(field(line, 1), &mut message);
    let is_read = spells(line, 0, 32) & is_whole(line, 1) & spells(line, MAC, 16);
    is_read & is_empty(line, 3) & is_mac_of(line, front(&message, count))
}
