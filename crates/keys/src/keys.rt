// Document 02, request 9: where the keys of a key part stand, what is allowed there, and the search of a key by its ID.
ghost use Rattle.std.specs.Prelude.{◌≡◌};
ghost use Rattle.keys.specs.Keys.{key_place, key_state_place, part_size, key_id_at, key_state_at, key_index, key_in_state, key_under, id_rises, key_ok, key_part_ok};

use octets::{copy_at, octet_at, two_at};

// The states, in their order.
pub const PRE_ACTIVE: u8 = 0;

pub const ACTIVE: u8 = 1;

pub const DEACTIVATED: u8 = 2;

// The most keys that a key part may have.
const MOST_KEYS: u8 = 64;

// The octets of a key: its ID, its state, and the key.
const ID_LENGTH: usize = 2;

const KEY_SIZE: usize = 35;

fn key_place(at: u16, index: u8) -> usize
    ensures { result ≡ key_place at index }
{
    at as usize + 1 + KEY_SIZE * (index as usize)
}

pub fn key_state_place(at: u16, index: u8) -> usize
    ensures { result ≡ key_state_place at index }
{
    key_place(at, index) + ID_LENGTH
}

// The octets of a key part with that many keys.
pub fn part_size(count: u8) -> usize
    ensures { result ≡ part_size count }
{
    1 + KEY_SIZE * (count as usize)
}

pub fn key_id_at(image: &[u8], at: u16, index: u8) -> u16
    ensures { result ≡ key_id_at image.now at index }
{
    two_at(image, key_place(at, index))
}

pub fn key_state_at(image: &[u8], at: u16, index: u8) -> u8
    ensures { result ≡ key_state_at image.now at index }
{
    octet_at(image, key_state_place(at, index))
}

// The index of the key with an ID, and the count where no key has it.
pub fn key_index(image: &[u8], at: u16, count: u8, id: u16) -> u8
    ensures { result ≡ key_index image.now at count id }
{
    (0..count)
        .find(|k| key_id_at(image, at, *k) == id)
        .unwrap_or(count)
}

// Whether there is a key with an ID, in that state.
pub fn key_in_state(image: &[u8], at: u16, count: u8, state: u8, id: u16) -> bool
    ensures { result ≡ key_in_state image.now at count state id }
{
    let k = key_index(image, at, count, id);
    (k < count) & (key_state_at(image, at, k) == state)
}

// The octets of the key with an ID.
pub fn key_under(image: &[u8], at: u16, count: u8, id: u16) -> [u8; 32]
    ensures { result ≡ key_under image.now at count id }
{
    let mut key: [u8; 32] = [0; 32];
    let place = key_state_place(at, key_index(image, at, count, id));
    copy_at(image, place + 1, &mut key);
    key
}

// What is allowed: the IDs rise, and each state is one that there is.
fn id_rises(image: &[u8], at: u16, index: u8) -> bool
    ensures { result ≡ id_rises image.now at index }
{
    index == 0 || key_id_at(image, at, index - 1) < key_id_at(image, at, index)
}

fn key_ok(image: &[u8], at: u16, index: u8) -> bool
    ensures { result ≡ key_ok image.now at index }
{
    (key_state_at(image, at, index) <= DEACTIVATED) & id_rises(image, at, index)
}

// All keys are tested, also behind one that breaks a rule.
pub fn key_part_ok(image: &[u8], at: u16, count: u8) -> bool
    ensures { result ≡ key_part_ok image.now at count }
{
    let ok = (0..count).fold(true, |ok, k| ok & key_ok(image, at, k));
    (count <= MOST_KEYS) & ok
}
