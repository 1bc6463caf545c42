// A channel that a start names, in four octets.
ghost use Rattle.std.specs.Prelude.{◌≡◌, Some};
ghost use Rattle.kinds.specs.Kinds.{named};
ghost use Rattle.bodies.specs.Body.{body_in, kind_in};
ghost use Rattle.command_form.specs.Channels.{channel_name, channel_in, names_one, channel_count, channels_right};

use crate::form::{CHANNEL, SPI};
use association::serves_channel;
use bodies::{kind_in, map_of, spacecraft_of};
use kinds::{Kind, kind_of};
use octets::four_at;

// Spacecraft, virtual channel and MAP, each in as many bits as the kind has for it; before those of AOS frames their version bits, 01.
fn channel_name(kind: Kind, spacecraft: u16, channel: u8, map: u8) -> u32
    ensures { result ≡ channel_name kind spacecraft channel map }
{
    match kind {
        Kind::Tc => spacecraft as u32 * 64 + channel as u32,
        Kind::SegmentedTc => (spacecraft as u32 * 64 + channel as u32) * 64 + map as u32,
        Kind::Tm => spacecraft as u32 * 8 + channel as u32,
        Kind::Aos => (256 + spacecraft as u32) * 64 + channel as u32,
    }
}

// The virtual channel in a name.
fn channel_in(kind: Kind, name: u32) -> u8
    ensures { result ≡ channel_in kind name }
{
    match kind {
        Kind::Tc => (name % 64) as u8,
        Kind::SegmentedTc => (name / 64 % 64) as u8,
        Kind::Tm => (name % 8) as u8,
        Kind::Aos => (name % 64) as u8,
    }
}

// Of a body of a kind.
fn kind_names(image: &[u8], kind: Kind, version: u8, at: u16, name: u32) -> bool
    ensures { result ≡ names_one version (Some kind) (body_in image.now version at) name }
{
    let channel = channel_in(kind, name);
    let spacecraft = spacecraft_of(image, version, at);
    let whole = channel_name(kind, spacecraft, channel, map_of(image, version, at));
    serves_channel(image, version, at, channel) & (name == whole)
}

fn names_one(image: &[u8], version: u8, at: u16, name: u32) -> bool
    ensures { result ≡ names_one version (named (kind_in (body_in image.now version at))) (body_in image.now version at) name }
{
    match kind_of(kind_in(image, version, at)) {
        Some(kind) => kind_names(image, kind, version, at, name),
        None => false,
    }
}

fn channel_count(value: &[u8]) -> usize
    ensures { result ≡ channel_count value.now }
{
    if value.len() < SPI {
        return 0;
    }
    (value.len() - SPI) / CHANNEL
}

// Whether each channel behind the SPI is the body's. All are tested, also behind one that is not.
pub fn channels_right(image: &[u8], version: u8, at: u16, value: &[u8]) -> bool
    ensures { result ≡ channels_right version (body_in image.now version at) value.now }
{
    let mut ok = true;
    for i in 0..channel_count(value) {
        ok = ok & names_one(image, version, at, four_at(value, SPI + CHANNEL * i));
    }
    ok
}
