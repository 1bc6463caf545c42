// Document 02, request 12: the new image, its kept entries laid out afresh by rising SPI.
ghost use Rattle.std.specs.Prelude.{◌+◌, ◌≤◌, length};
ghost use Rattle.octets.specs.Numbers.{bytes};
ghost use Rattle.bodies.specs.Body.{body_in};
ghost use Rattle.image.specs.Image.{version_of};
ghost use Rattle.writing.specs.Output.{Put};
ghost use Rattle.salvage_image.specs.KeptOf.{KeptOf};
ghost use Rattle.writing.specs.Text.{end_to_end};
ghost use Rattle.salvage_image.specs.Salvage.{new_entry, new_body, new_image, salvaged_image};

use crate::refusal::salvageable;
use bodies::layout_of;
use image::{body_place, position_of, spi_of, version_of};
use octets::octet_at;
use salvage_entries::{keep_entries, old_index};
use writing::{put_octet, put_text};

// A number as two octets.
#[tactic(auto, unfolding(octets::specs::Numbers::bytes))]
fn put_two(out: &mut [u8], at: usize, n: u16) -> usize
    requires { at + 2 ≤ length out.old }
    ensures { Put out.old at (bytes 2 n) out.new result }
{
    put_text(out, at, &n.to_be_bytes())
}

// The contents entry with a new index: SPI and position.
fn put_entry(x: &[u8], kept: &[u8], index: u8, out: &mut [u8], at: usize) -> usize
    requires { KeptOf x.now kept.now × (at + 4 ≤ length out.old) }
    ensures { Put out.old at (new_entry x.now index) out.new result }
{
    let spi = spi_of(x, old_index(x, kept, index as usize));
    let place = body_place(layout_of(version_of(x)), kept.len() as u8, index);
    let behind = put_two(out, at, spi);
    put_two(out, behind, place)
}

// The body at a position.
#[tactic(auto, using(writing::proofs::Puts::put_none, crate::proofs::Parts::part_none))]
fn put_body(x: &[u8], position: u16, out: &mut [u8], at: usize) -> usize
    requires { at + length (body_in x.now (version_of x.now) position) ≤ length out.old }
    ensures { Put out.old at (body_in x.now (version_of x.now) position) out.new result }
{
    let size = layout_of(version_of(x)).body as usize;
    let mut behind = at;
    for i in 0..size {
        behind = put_octet(out, behind, octet_at(x, position as usize + i));
    }
    behind
}

#[tactic(auto, using(writing::proofs::Puts::put_none, writing::proofs::Ends::end_none))]
fn put_contents(x: &[u8], kept: &[u8], out: &mut [u8], at: usize) -> usize
    requires { KeptOf x.now kept.now × (at + length (end_to_end (length kept.now) (new_entry x.now)) ≤ length out.old) }
    ensures { Put out.old at (end_to_end (length kept.now) (new_entry x.now)) out.new result }
{
    let mut behind = at;
    for i in 0..kept.len() as u8 {
        behind = put_entry(x, kept, i, out, behind);
    }
    behind
}

// Not one function with `put_contents`, over a closure: its clauses would have to say what each put promises, which is no plainer.
#[tactic(auto, using(writing::proofs::Puts::put_none, writing::proofs::Ends::end_none))]
fn put_bodies(x: &[u8], kept: &[u8], out: &mut [u8], at: usize) -> usize
    requires { KeptOf x.now kept.now × (at + length (end_to_end (length kept.now) (new_body x.now)) ≤ length out.old) }
    ensures { Put out.old at (end_to_end (length kept.now) (new_body x.now)) out.new result }
{
    let mut behind = at;
    for i in 0..kept.len() {
        behind = put_body(x, position_of(x, old_index(x, kept, i)), out, behind);
    }
    behind
}

// Version, count, contents, bodies.
fn put_kept(x: &[u8], kept: &[u8], out: &mut [u8]) -> usize
    requires { KeptOf x.now kept.now × (length (new_image x.now) ≤ length out.old) }
    ensures { Put out.old 0 (new_image x.now) out.new result }
{
    let first = put_octet(out, 0, version_of(x));
    let second = put_octet(out, first, kept.len() as u8);
    let third = put_contents(x, kept, out, second);
    put_bodies(x, kept, out, third)
}

// The image; of a refused input there is none.
#[tactic(auto, using(writing::proofs::Puts::put_none, crate::proofs::Sizes::taken, crate::proofs::Sizes::kept_of, crate::proofs::Sizes::image_short), unfolding(crate::specs::Salvage::salvaged_image))]
pub(crate) fn put_image(x: &[u8], out: &mut [u8]) -> usize
    requires { 1794 ≤ length out.old }
    ensures { Put out.old 0 (salvaged_image x.now) out.new result }
{
    if salvageable(x) {
        let mut kept = [0u8; 255];
        let count = keep_entries(x, &mut kept);
        return put_kept(x, &kept[..count], out);
    }
    0
}
