// Document 01, 'The image', and document 02, request 9: where its parts stand, and what is allowed.
ghost use Rattle.std.specs.Prelude.{◌≡◌, true, not, ◌&&◌, ◌||◌, ◌+◌, ◌≤◌, eqb, length};
ghost use Rattle.octets.specs.Lists.{part, all};
ghost use Rattle.octets.specs.Numbers.{number_at};
ghost use Rattle.bodies.specs.Body.{body_in, state_of, operational, key_id_of, body_ok};
ghost use Rattle.bodies.specs.Layout.{key_length, Lawful};
ghost use Rattle.keys.specs.Keys.{active, key_in_state};
ghost use Rattle.image.specs.Image.{version_of, count_of, entry_place, spi_of, position_of, body_place, farthest, body_at, body_of};
ghost use Rattle.image.specs.Image.{layout, mark_at, mark_in, part_at, key_count, key_with, key_in, key_id_in, key_of, image_size, laid_out, spi_before, entry_ok};
ghost use Rattle.image.specs.Image.{last_ok, keyed_ok, keys_ok, valid_image};

use bodies::{
    Layout, OPERATIONAL, body_inside_ok, code_of, key_id_of, layout_of, state_of, version_ok,
};
use keys::{ACTIVE, key_in_state, key_index, key_part_ok, key_under, part_size};
use marks::mark_of;
use octets::{copy_at, octet_at, two_at};

// The SPI of the last entry of the contents, which is that of the key part.
const PART_SPI: u16 = 65535;

// The octets of the longest image that there may be, one of version 4 with all its entries and keys.
pub const LONGEST_IMAGE: usize = 3111;

pub fn version_of(image: &[u8]) -> u8
    ensures { result ≡ version_of image.now }
{
    octet_at(image, 0)
}

// How many entries the contents have.
pub fn count_of(image: &[u8]) -> u8
    ensures { result ≡ count_of image.now }
{
    octet_at(image, 1)
}

// The contents: entries of four octets, SPI and position.
fn entry_place(index: u8) -> usize
    ensures { result ≡ entry_place index }
{
    2 + 4 * (index as usize)
}

pub fn spi_of(image: &[u8], index: u8) -> u16
    ensures { result ≡ spi_of image.now index }
{
    two_at(image, entry_place(index))
}

pub fn position_of(image: &[u8], index: u8) -> u16
    ensures { result ≡ position_of image.now index }
{
    two_at(image, entry_place(index) + 2)
}

// Where a body stands in an image of so many entries.
pub fn body_place(layout: Layout, count: u8, index: u8) -> u16
    requires { Lawful layout }
    ensures { (result ≡ body_place layout count index) × (result ≤ farthest) }
{
    2 + 4 * (count as u16 + layout.extra as u16) + (layout.body as u16) * (index as u16)
}

pub fn body_at(image: &[u8], index: u8) -> u16
    ensures { (result ≡ body_at image.now index) × (result ≤ farthest) }
{
    body_place(layout_of(version_of(image)), count_of(image), index)
}

// Where the mark of an entry stands, by layout and count and of an image; and the mark.
pub fn mark_place(layout: Layout, count: u8, index: u8) -> u16
    requires { Lawful layout }
    ensures { result ≡ body_place layout count index + layout.mark }
{
    body_place(layout, count, index) + layout.mark as u16
}

pub fn mark_at(image: &[u8], index: u8) -> u16
    ensures { result ≡ mark_at image.now index }
{
    mark_place(layout_of(version_of(image)), count_of(image), index)
}

pub fn mark_in(image: &[u8], index: u8) -> u32
    ensures { result ≡ mark_in image.now index }
{
    mark_of(code_of(image, version_of(image), body_at(image, index)))
}

// The keys. Whether they stand in a part of their own, where that part stands, and how many it has.
pub fn has_part(image: &[u8]) -> bool
    ensures { result ≡ (layout image.now).keys }
{
    layout_of(version_of(image)).keys
}

pub fn part_at(image: &[u8]) -> u16
    ensures { (result ≡ part_at image.now) × (result ≤ farthest) }
{
    let count = count_of(image);
    body_place(layout_of(version_of(image)), count, count)
}

pub fn key_count(image: &[u8]) -> u8
    ensures { result ≡ key_count image.now }
{
    if has_part(image) {
        return octet_at(image, part_at(image) as usize);
    }
    0
}

// The index of the key with an ID, and the count where none has it; and whether it is in a state.
pub fn key_with(image: &[u8], id: u16) -> u8
    ensures { result ≡ key_with image.now id }
{
    key_index(image, part_at(image), key_count(image), id)
}

pub fn key_in(image: &[u8], state: u8, id: u16) -> bool
    ensures { result ≡ key_in image.now state id }
{
    key_in_state(image, part_at(image), key_count(image), state, id)
}

// The ID that an entry names.
pub fn key_id_in(image: &[u8], index: u8) -> u16
    ensures { result ≡ key_id_in image.now index }
{
    key_id_of(image, version_of(image), body_at(image, index))
}

// The key in the body of an entry.
fn key_in_body(image: &[u8], index: u8) -> [u8; 32]
    ensures { result ≡ part (body_at image.now index + (layout image.now).key) key_length image.now }
{
    let mut key: [u8; 32] = [0; 32];
    let at = body_at(image, index) + layout_of(version_of(image)).key as u16;
    copy_at(image, at as usize, &mut key);
    key
}

// The key of an entry: that of the key part which its body names, or the one in its body.
pub fn key_of(image: &[u8], index: u8) -> [u8; 32]
    ensures { result ≡ key_of image.now index }
{
    if has_part(image) {
        return key_under(
            image,
            part_at(image),
            key_count(image),
            key_id_in(image, index),
        );
    }
    key_in_body(image, index)
}

// The image ends behind the key part, or behind the last body.
fn image_size(image: &[u8]) -> usize
    ensures { result ≡ image_size image.now }
{
    let at = part_at(image) as usize;
    if has_part(image) {
        return at + part_size(key_count(image));
    }
    at
}

// Version, count, and exactly the size that they ask for.
pub fn laid_out(image: &[u8]) -> bool
    ensures { result ≡ laid_out image.now }
{
    version_ok(version_of(image)) & (count_of(image) <= 32) & (image.len() == image_size(image))
}

// Two octets that are all there.
fn two_inside(image: &[u8], from: usize) -> u16
    requires { from + 2 ≤ length image.now }
    ensures { result ≡ number_at from 2 image.now }
{
    let end = from + 2;
    two_at(&image[from..end], 0)
}

// The rule of an entry whose octets are all there. The SPI before it and the place of its body are given.
fn entry_ok(image: &[u8], index: u8, before: u16, at: u16) -> bool
    requires { (entry_place index + 4 ≤ length image.now) × (before ≡ spi_before image.now index) × (at ≡ body_at image.now index) }
    ensures { result ≡ entry_ok image.now index }
{
    let spi = two_inside(image, entry_place(index));
    let position = two_inside(image, entry_place(index) + 2);
    (1 <= spi) & (spi <= 65534) & (before < spi) & (position == at)
}

// Every entry with its body, of an image that is laid out. All are tested, also behind one that breaks a rule.
fn entries_ok(image: &[u8]) -> bool
    requires { laid_out image.now ≡ true }
    ensures { result ≡ all (count_of image.now) (λ i. entry_ok image.now i && body_ok (version_of image.now) (body_of image.now i)) }
{
    let version = version_of(image);
    let layout = layout_of(version);
    let count = count_of(image);
    let mut ok = true;
    let mut before: u16 = 0;
    for i in 0..count {
        let at = body_place(layout, count, i);
        ok = ok & (entry_ok(image, i, before, at) & body_inside_ok(image, version, at));
        before = two_inside(image, entry_place(i));
    }
    ok
}

// The entry of the contents that is outside the count names the key part.
fn last_ok(image: &[u8]) -> bool
    ensures { result ≡ last_ok image.now }
{
    let count = count_of(image);
    (spi_of(image, count) == PART_SPI) & (position_of(image, count) == part_at(image))
}

// An operational body names a key that is active; another may name any ID. The body and the key part are given by their places.
fn keyed_ok(image: &[u8], version: u8, at: u16, part: u16, keys: u8) -> bool
    ensures { result ≡ (not (eqb (state_of (body_in image.now version at)) operational) || key_in_state image.now part keys active (key_id_of version (body_in image.now version at))) }
{
    !(state_of(image, version, at) == OPERATIONAL)
        | key_in_state(image, part, keys, ACTIVE, key_id_of(image, version, at))
}

fn bodies_keyed(image: &[u8]) -> bool
    ensures { result ≡ all (count_of image.now) (keyed_ok image.now) }
{
    let version = version_of(image);
    let layout = layout_of(version);
    let count = count_of(image);
    let part = part_at(image);
    let keys = key_count(image);
    (0..count).fold(true, |ok, i| {
        ok & keyed_ok(image, version, body_place(layout, count, i), part, keys)
    })
}

// What a version with a key part asks for.
fn keys_ok(image: &[u8]) -> bool
    ensures { result ≡ keys_ok image.now }
{
    if has_part(image) {
        return last_ok(image)
            & key_part_ok(image, part_at(image), key_count(image))
            & bodies_keyed(image);
    }
    true
}

// Every rule of the image, answer 1: its layout, each entry with its body, and the keys. Where the layout is not right, no entry is read.
pub fn image_ok(image: &[u8]) -> bool
    ensures { result ≡ valid_image image.now }
{
    if laid_out(image) {
        return entries_ok(image) & keys_ok(image);
    }
    false
}
