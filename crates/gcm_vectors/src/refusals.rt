// Entries that are refused, with one bit of a field changed.
use gcm_entries::{ADDITIONAL, CIPHERTEXT, TAG, is_entry, iv};
use lines::{field, read_octets};
use vector_lines::{is_empty, key};

// Changes one bit, by turns another one.
fn change(octets: &mut [u8], n: u64) {
    if octets.is_empty() {
        return;
    }
    let at = n as usize % octets.len();
    octets[at] ^= 1 << (n % 8);
}

// The octets of a field, read to the front of `room`, with a bit changed where it is the field to be changed.
fn read_part<'a>(
    changed: usize,
    n: u64,
    line: &[u8],
    number: usize,
    room: &'a mut [u8],
) -> &'a [u8] {
    let count = read_octets(field(line, number), room);
    let part = &mut room[..count];
    if changed == number {
        change(part, n);
    }
    part
}

fn check_refuses(line: &[u8], additional: &[u8], ciphertext: &[u8], tag: [u8; 16]) -> bool {
    let checked = gcm::check(key(line), iv(line), additional, ciphertext, tag);
    checked == Err(gcm::Refusal::WrongTag)
}

// The output must stay as it was.
fn open_refuses(line: &[u8], additional: &[u8], ciphertext: &[u8], tag: [u8; 16]) -> bool {
    let mut out = [0xa5u8; 64];
    let opened = gcm::open(key(line), iv(line), additional, ciphertext, tag, &mut out);
    opened == Err(gcm::Refusal::WrongTag) && out == [0xa5u8; 64]
}

fn is_refused_with(changed: usize, n: u64, line: &[u8], additional: &[u8]) -> bool {
    let mut room = [0u8; 64];
    let mut tag = [0u8; 16];
    let ciphertext = read_part(changed, n, line, CIPHERTEXT, &mut room);
    read_part(changed, n, line, TAG, &mut tag);
    check_refuses(line, additional, ciphertext, tag)
        & open_refuses(line, additional, ciphertext, tag)
}

// Whether both the check and the opening say that the tag is wrong.
fn is_refused(changed: usize, n: u64, line: &[u8]) -> bool {
    let mut room = [0u8; 96];
    let additional = read_part(changed, n, line, ADDITIONAL, &mut room);
    is_refused_with(changed, n, line, additional)
}

// Whether the n-th entry of a file is refused. One whose field is empty has no bit to be changed, and is not counted.
pub(crate) fn refused(changed: usize, n: u64, line: &[u8]) -> Option<bool> {
    if is_entry(line) & is_empty(line, changed) {
        return None;
    }
    Some(is_entry(line) & is_refused(changed, n, line))
}
