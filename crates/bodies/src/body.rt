// Document 01, 'The image', and document 02, requests 2, 5, 9 and 10: the body of an entry, what its octets hold and what is allowed there.
ghost use Rattle.std.specs.Prelude.{length, ◌≡◌, ◌+◌, ◌<◌, ◌≤◌, Some};
ghost use Rattle.octets.specs.Lists.{octet};
ghost use Rattle.octets.specs.Numbers.{number_at};
ghost use Rattle.kinds.specs.Kinds.{kind_is, named};
ghost use Rattle.bodies.specs.Body.{body_in, service_of, kind_in, direction_of, state_of, spacecraft_of, channel_of, holds_set, map_of, window_of, mask_of, key_id_of, code_of, owner_of};
ghost use Rattle.bodies.specs.Body.{service_ok, direction_ok, state_ok, channel_ok, mask_ok, kind_ok, window_fits, window_ok, mark_ok, owner_ok, body_ok};
ghost use Rattle.bodies.specs.Layout.{fields_end, layout_of};

use crate::layout::{
    CHANNEL, CODE_LENGTH, DIRECTION, KIND, MAP, MASK, MASK_LENGTH, SERVICE, SPACECRAFT, STATE,
    WINDOW, layout_of,
};
use kinds::{Kind, kind_of};
use octets::{copy_at, four_at, octet_at, two_at};

// The states, in their order; an association serves in the last.
pub const UNKEYED: u8 = 0;

pub const KEYED: u8 = 1;

pub const OPERATIONAL: u8 = 2;

// The desks: the key office's, and those to which bodies belong, from the first to the last.
pub const KEY_OFFICE: u8 = 0;

const FIRST_DESK: u8 = 1;

pub const LAST_DESK: u8 = 2;

// What it holds. Of the fields that every version has: octet k, and the number of two octets from there on.
fn body_octet(image: &[u8], version: u8, at: u16, k: usize) -> u8
    requires { k < fields_end }
    ensures { result ≡ octet (body_in image.now version at) k }
{
    octet_at(image, at as usize + k)
}

fn body_two(image: &[u8], version: u8, at: u16, k: usize) -> u16
    requires { k + 2 ≤ fields_end }
    ensures { result ≡ number_at k 2 (body_in image.now version at) }
{
    two_at(image, at as usize + k)
}

pub fn service_of(image: &[u8], version: u8, at: u16) -> u8
    ensures { result ≡ service_of (body_in image.now version at) }
{
    body_octet(image, version, at, SERVICE)
}

// The number of the frame kind.
pub fn kind_in(image: &[u8], version: u8, at: u16) -> u8
    ensures { result ≡ kind_in (body_in image.now version at) }
{
    body_octet(image, version, at, KIND)
}

pub fn direction_of(image: &[u8], version: u8, at: u16) -> u8
    ensures { result ≡ direction_of (body_in image.now version at) }
{
    body_octet(image, version, at, DIRECTION)
}

pub fn state_of(image: &[u8], version: u8, at: u16) -> u8
    ensures { result ≡ state_of (body_in image.now version at) }
{
    body_octet(image, version, at, STATE)
}

pub fn spacecraft_of(image: &[u8], version: u8, at: u16) -> u16
    ensures { result ≡ spacecraft_of (body_in image.now version at) }
{
    body_two(image, version, at, SPACECRAFT)
}

// The virtual channel, or a set of them.
pub fn channel_of(image: &[u8], version: u8, at: u16) -> u8
    ensures { result ≡ channel_of (body_in image.now version at) }
{
    body_octet(image, version, at, CHANNEL)
}

// Whether it is a set: of a TM body, where the version has sets.
pub fn holds_set(image: &[u8], version: u8, at: u16) -> bool
    ensures { result ≡ holds_set version (body_in image.now version at) }
{
    layout_of(version).sets & (kind_in(image, version, at) == 3)
}

pub fn map_of(image: &[u8], version: u8, at: u16) -> u8
    ensures { result ≡ map_of (body_in image.now version at) }
{
    body_octet(image, version, at, MAP)
}

pub fn window_of(image: &[u8], version: u8, at: u16) -> u16
    ensures { result ≡ window_of (body_in image.now version at) }
{
    body_two(image, version, at, WINDOW)
}

pub fn mask_of(image: &[u8], version: u8, at: u16) -> [u8; 6]
    ensures { result ≡ mask_of (body_in image.now version at) }
{
    let mut mask: [u8; MASK_LENGTH] = [0; MASK_LENGTH];
    copy_at(image, at as usize + MASK, &mut mask);
    mask
}

// The ID of the key, where the version has a key part.
pub fn key_id_of(image: &[u8], version: u8, at: u16) -> u16
    ensures { result ≡ key_id_of version (body_in image.now version at) }
{
    two_at(image, at as usize + layout_of(version).key as usize)
}

// Its four octets are read at once where all are there.
pub fn code_of(image: &[u8], version: u8, at: u16) -> u32
    ensures { result ≡ code_of version (body_in image.now version at) }
{
    let from = at as usize + layout_of(version).mark as usize;
    let end = from + CODE_LENGTH;
    if end <= image.len() {
        return four_at(&image[from..end], 0);
    }
    four_at(image, from)
}

// The desk to which it belongs; in a version that has no owners, the first.
pub fn owner_of(image: &[u8], version: u8, at: u16) -> u8
    ensures { result ≡ owner_of version (body_in image.now version at) }
{
    let layout = layout_of(version);
    if layout.owners {
        return octet_at(image, at as usize + layout.mark as usize + CODE_LENGTH);
    }
    FIRST_DESK
}

// What is allowed: a function for each rule of the table.
fn service_ok(image: &[u8], version: u8, at: u16) -> bool
    ensures { result ≡ service_ok (body_in image.now version at) }
{
    let service = service_of(image, version, at);
    (1 <= service) & (service <= 2)
}

fn direction_ok(image: &[u8], version: u8, at: u16) -> bool
    ensures { result ≡ direction_ok (body_in image.now version at) }
{
    let direction = direction_of(image, version, at);
    (1 <= direction) & (direction <= 2)
}

fn state_ok(image: &[u8], version: u8, at: u16) -> bool
    ensures { result ≡ state_ok (body_in image.now version at) }
{
    state_of(image, version, at) <= OPERATIONAL
}

// A set is not empty; one channel is at most what the kind allows.
fn channel_ok(image: &[u8], kind: Kind, version: u8, at: u16) -> bool
    ensures { result ≡ channel_ok version (kind_is kind) (body_in image.now version at) }
{
    let channel = channel_of(image, version, at);
    if holds_set(image, version, at) {
        1 <= channel
    } else {
        channel <= kind.most_channel()
    }
}

// Where the mask is longer than what it covers of a header, the octet behind that is 0.
fn mask_ok(image: &[u8], kind: Kind, version: u8, at: u16) -> bool
    ensures { result ≡ mask_ok (kind_is kind) (body_in image.now version at) }
{
    let mask = mask_of(image, version, at);
    let covered = kind.under_mask();
    (MASK_LENGTH <= covered) | (octet_at(&mask, covered) == 0)
}

// Spacecraft, virtual channels and MAP are what the kind allows, and the mask covers its header alone.
fn kind_kept(image: &[u8], kind: Kind, version: u8, at: u16) -> bool
    ensures { result ≡ kind_ok version (Some kind) (body_in image.now version at) }
{
    (spacecraft_of(image, version, at) <= kind.most_spacecraft())
        & channel_ok(image, kind, version, at)
        & (map_of(image, version, at) <= kind.most_map())
        & mask_ok(image, kind, version, at)
}

// The kind's number names one, and its rules are kept.
fn kind_ok(image: &[u8], version: u8, at: u16) -> bool
    ensures { result ≡ kind_ok version (named (kind_in (body_in image.now version at))) (body_in image.now version at) }
{
    match kind_of(kind_in(image, version, at)) {
        Some(kind) => kind_kept(image, kind, version, at),
        None => false,
    }
}

// A window with which an association may serve.
pub fn window_fits(window: u16) -> bool
    ensures { result ≡ window_fits window }
{
    (1 <= window) & (window <= 1024)
}

// Request 5: it is asked of a body that is operational alone.
fn window_ok(image: &[u8], version: u8, at: u16) -> bool
    ensures { result ≡ window_ok (body_in image.now version at) }
{
    !(state_of(image, version, at) == OPERATIONAL) | window_fits(window_of(image, version, at))
}

// A mark is below 2^26 if and only if its code is, so the code is tested and no mark made.
fn mark_ok(image: &[u8], version: u8, at: u16) -> bool
    ensures { result ≡ mark_ok version (body_in image.now version at) }
{
    code_of(image, version, at) < 67108864
}

fn owner_ok(image: &[u8], version: u8, at: u16) -> bool
    ensures { result ≡ owner_ok version (body_in image.now version at) }
{
    let owner = owner_of(image, version, at);
    (FIRST_DESK <= owner) & (owner <= LAST_DESK)
}

pub fn body_ok(image: &[u8], version: u8, at: u16) -> bool
    ensures { result ≡ body_ok version (body_in image.now version at) }
{
    service_ok(image, version, at)
        & direction_ok(image, version, at)
        & state_ok(image, version, at)
        & kind_ok(image, version, at)
        & window_ok(image, version, at)
        & mark_ok(image, version, at)
        & owner_ok(image, version, at)
}

// The same of a body whose octets are all there: they are read by themselves, and none is asked whether it is inside.
pub fn body_inside_ok(image: &[u8], version: u8, at: u16) -> bool
    requires { at + (layout_of version).body ≤ length image.now }
    ensures { result ≡ body_ok version (body_in image.now version at) }
{
    let from = at as usize;
    let end = from + layout_of(version).body as usize;
    body_ok(&image[from..end], version, 0)
}
