// The fields of a line, each in hexadecimal.
ghost use Rattle.std.specs.Prelude.{◌≡◌, true, length, take, drop};
ghost use Rattle.vector_lines.specs.Spelled.{text_in, octets_in, whole_field, spelled_in, empty_field};

use lines::{field, front, read_octets};

// Reads the octets that field n spells, as many as there is room for, to the front of `room`, and answers how many they are; the others stay.
pub fn read_field(line: &[u8], n: usize, room: &mut [u8]) -> usize
    ensures octets { take result room.new ≡ text_in (length room.old) n line.now }
    ensures count { result ≡ length (text_in (length room.old) n line.now) }
    ensures others { drop result room.new ≡ drop result room.old }
{
    read_octets(field(line, n), room)
}

// Whether field n spells octets, at most 96, and nothing else.
pub fn is_whole(line: &[u8], n: usize) -> bool
    ensures { result ≡ whole_field n line.now }
{
    field(line, n).len() == 2 * read_field(line, n, &mut [0; 96])
}

// Whether field n spells that many octets and nothing else.
pub fn spells(line: &[u8], n: usize, count: usize) -> bool
    ensures { result ≡ spelled_in count n line.now }
{
    is_whole(line, n) & (field(line, n).len() / 2 == count)
}

// Whether field n spells these octets and nothing else.
pub fn is_field(line: &[u8], n: usize, octets: &[u8]) -> bool
    ensures { (result ≡ true → (whole_field n line.now ≡ true) × (octets.now ≡ text_in 96 n line.now)) × (whole_field n line.now ≡ true → octets.now ≡ text_in 96 n line.now → result ≡ true) }
{
    let mut room = [0u8; 96];
    let count = read_field(line, n, &mut room);
    is_whole(line, n) & (front(&room, count) == octets)
}

pub fn is_empty(line: &[u8], n: usize) -> bool
    ensures { result ≡ empty_field n line.now }
{
    field(line, n).is_empty()
}

// At most N octets of field n; the others are 0.
pub fn octets<const N: usize>(line: &[u8], n: usize) -> [u8; N]
    ensures { result ≡ octets_in N n line.now }
{
    let mut octets = [0u8; N];
    read_octets(field(line, n), &mut octets);
    octets
}

// The key, which is field 0 of every line.
pub fn key(line: &[u8]) -> [u8; 32]
    ensures { result ≡ octets_in 32 0 line.now }
{
    octets(line, 0)
}
