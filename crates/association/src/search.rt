// Document 01, 'What comes back', answer 4, and document 02, requests 2, 5 and 10: the search of the contents for the entry that serves a
// frame, and for the one that a command names. An entry that the desk which asks does not see is none.
ghost use Rattle.std.specs.Prelude.{◌≡◌};
ghost use Rattle.kinds.specs.Kinds.{has_map, kind_of};
ghost use Rattle.bodies.specs.Body.{body_in};
ghost use Rattle.association.specs.Search.{in_set, serves_channel, serves_map, body_serves, sees, has_spi, matches, entry_for, with_spi};

use bodies::{
    KEY_OFFICE, OPERATIONAL, channel_of, direction_of, holds_set, kind_in, map_of, owner_of,
    spacecraft_of, state_of,
};
use image::{body_at, count_of, spi_of, version_of};
use kinds::kind_of;

// What a desk, a frame and its SPI ask of an entry.
#[derive(Clone, Copy)]
pub struct Wanted {
    pub desk: u8,
    pub spi: u16,
    pub direction: u8,
    pub kind: u8,
    pub spacecraft: u16,
    pub channel: u8,
    pub map: u8,
}

// Whether a channel is in a set of eight bits, the lowest for channel 0.
fn in_set(set: u8, channel: u8) -> bool
    ensures { result ≡ in_set set channel }
{
    if 8 <= channel {
        return false;
    }
    (set >> channel) % 2 == 1
}

pub fn serves_channel(image: &[u8], version: u8, at: u16, channel: u8) -> bool
    ensures { result ≡ serves_channel version (body_in image.now version at) channel }
{
    let held = channel_of(image, version, at);
    if holds_set(image, version, at) {
        in_set(held, channel)
    } else {
        held == channel
    }
}

// Whether frames of the kind that a number names have a MAP.
fn has_map(number: u8) -> bool
    ensures { result ≡ has_map (kind_of number) }
{
    match kind_of(number) {
        Some(kind) => 0 < kind.most_map(),
        None => false,
    }
}

fn serves_map(image: &[u8], version: u8, at: u16, map: u8) -> bool
    ensures { result ≡ serves_map (body_in image.now version at) map }
{
    !has_map(kind_in(image, version, at)) | (map_of(image, version, at) == map)
}

fn body_serves(image: &[u8], version: u8, at: u16, wanted: Wanted) -> bool
    ensures { result ≡ body_serves version (body_in image.now version at) wanted }
{
    (state_of(image, version, at) == OPERATIONAL)
        & (direction_of(image, version, at) == wanted.direction)
        & (kind_in(image, version, at) == wanted.kind)
        & (spacecraft_of(image, version, at) == wanted.spacecraft)
        & serves_channel(image, version, at, wanted.channel)
        & serves_map(image, version, at, wanted.map)
}

// The key office's desk sees every body, another those that belong to it.
fn sees(desk: u8, owner: u8) -> bool
    ensures { result ≡ sees desk owner }
{
    (desk == KEY_OFFICE) | (desk == owner)
}

// Whether an entry has an SPI, for a desk. Of an entry with another SPI the body is not read.
fn has_spi(image: &[u8], desk: u8, spi: u16, index: u8) -> bool
    ensures { result ≡ has_spi image.now desk spi index }
{
    if spi_of(image, index) == spi {
        let owner = owner_of(image, version_of(image), body_at(image, index));
        return sees(desk, owner);
    }
    false
}

fn entry_matches(image: &[u8], wanted: Wanted, index: u8) -> bool
    ensures { result ≡ matches image.now wanted index }
{
    if has_spi(image, wanted.desk, wanted.spi, index) {
        return body_serves(image, version_of(image), body_at(image, index), wanted);
    }
    false
}

// The entry with an SPI, whatever its direction, kind and state.
pub fn find_spi(image: &[u8], desk: u8, spi: u16) -> Option<u8>
    ensures { result ≡ with_spi image.now desk spi }
{
    (0..count_of(image)).find(|i| has_spi(image, desk, spi, *i))
}

// The search of the contents. It ends at the first entry that matches. Document 01 names its form: a loop that yields the entry's index by
// `break`, or none.
pub fn find(image: &[u8], wanted: Wanted) -> Option<u8>
    ensures { result ≡ entry_for image.now wanted }
{
    let count = count_of(image);
    let mut i: u8 = 0;
    loop {
        if count <= i {
            break None;
        }
        if entry_matches(image, wanted, i) {
            break Some(i);
        }
        i += 1;
    }
}
