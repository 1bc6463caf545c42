// Document 02, request 12: what is asked of an entry that is kept, and the entries that are.
ghost use Rattle.std.specs.Prelude.{◌≡◌, ◌≤◌, eqb, length, take};
ghost use Rattle.bodies.specs.Body.{body_ok};
ghost use Rattle.image.specs.Image.{version_of, spi_of, position_of};
ghost use Rattle.std.specs.List.{list_any};
ghost use Rattle.salvage_entries.specs.Kept.{is_whole, spi_allowed, at_place, body_inside, body_there, keepable, kept_entries};

use bodies::{body_ok, layout_of};
use image::{body_at, count_of, position_of, spi_of, version_of};

// It is whole: its four octets were read.
fn is_whole(x: &[u8], index: u8) -> bool
    ensures { result ≡ is_whole x.now index }
{
    2 + 4 * (index as usize + 1) <= x.len()
}

fn spi_allowed(x: &[u8], index: u8) -> bool
    ensures { result ≡ spi_allowed x.now index }
{
    (1..=65534).contains(&spi_of(x, index))
}

// Its position is one of the k places of bodies.
fn at_place(x: &[u8], index: u8) -> bool
    ensures { result ≡ at_place x.now index }
{
    let position = position_of(x, index);
    (0..count_of(x)).any(|i| body_at(x, i) == position)
}

// The body there was read whole.
fn body_inside(x: &[u8], index: u8) -> bool
    ensures { result ≡ body_inside x.now index }
{
    position_of(x, index) as usize + layout_of(version_of(x)).body as usize <= x.len()
}

fn body_obeys(x: &[u8], index: u8) -> bool
    ensures { result ≡ body_ok (version_of x.now) (body_there x.now index) }
{
    body_ok(x, version_of(x), position_of(x, index))
}

// All that is asked of an entry, where those kept before it are given.
fn keepable(x: &[u8], before: &[u8], index: u8) -> bool
    ensures { result ≡ keepable x.now before.now index }
{
    let spi = spi_of(x, index);
    let position = position_of(x, index);
    is_whole(x, index)
        & spi_allowed(x, index)
        & !before.iter().any(|&h| spi_of(x, h) == spi)
        & at_place(x, index)
        & body_inside(x, index)
        & !before.iter().any(|&h| position_of(x, h) == position)
        & body_obeys(x, index)
}

// The entries that are kept, in contents order, to the front of `kept`; the answer is how many they are.
#[tactic(auto, using(crate::proofs::Gathering::gathered_none))]
pub fn keep_entries(x: &[u8], kept: &mut [u8]) -> usize
    requires { 255 ≤ length kept.old }
    ensures { (result ≤ length kept.new) × (take result kept.new ≡ kept_entries x.now) }
{
    let mut count = 0;
    for i in 0..count_of(x) {
        if keepable(x, &kept[..count], i) {
            kept[count] = i;
            count += 1;
        }
    }
    count
}
