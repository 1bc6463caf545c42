// Document 02, request 9: a key that is named by its ID, in an image: whether it is there, whether it is active, and whether an operational
// body names it. Every function answers for every image, and nothing is changed.
#![tactic(auto)]

ghost use Rattle.std.specs.Prelude.{◌≡◌};
ghost use Rattle.named_keys.specs.NamedKeys.{has_key, key_there, key_active, idle_at, unserved, freed};

use bodies::{OPERATIONAL, state_of};
use image::{body_at, count_of, has_part, key_count, key_id_in, key_in, key_with, version_of};
use keys::ACTIVE;

pub fn has_key(image: &[u8], id: u16) -> bool
    ensures { result ≡ has_key image.now id }
{
    key_with(image, id) < key_count(image)
}

// Of an association: there, and active, where the version has a key part.
pub fn key_there(image: &[u8], id: u16) -> bool
    ensures { result ≡ key_there image.now id }
{
    !has_part(image) | has_key(image, id)
}

pub fn key_active(image: &[u8], id: u16) -> bool
    ensures { result ≡ key_active image.now id }
{
    !has_part(image) | key_in(image, ACTIVE, id)
}

// No operational body names it.
fn idle_at(image: &[u8], id: u16, index: u8) -> bool
    ensures { result ≡ idle_at image.now id index }
{
    let state = state_of(image, version_of(image), body_at(image, index));
    !((state == OPERATIONAL) & (key_id_in(image, index) == id))
}

// All bodies are tested, also behind one that does.
fn all_idle(image: &[u8], id: u16) -> bool
    ensures { result ≡ unserved image.now id }
{
    let count = count_of(image);
    (0..count).fold(true, |ok, i| ok & idle_at(image, id, i))
}

// Active, and no operational body names it.
pub fn key_freed(image: &[u8], id: u16) -> bool
    ensures { result ≡ freed image.now id }
{
    key_in(image, ACTIVE, id) & all_idle(image, id)
}
