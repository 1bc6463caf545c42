// Document 02, request 12: the lines, one for each entry that is dropped or has a new index or position.
ghost use Rattle.std.specs.Prelude.{◌≡◌, ◌+◌, ◌≤◌, length};
ghost use Rattle.writing.specs.Output.{Put};
ghost use Rattle.salvage_image.specs.KeptOf.{KeptOf};
ghost use Rattle.salvage_lines.specs.Lines.{line_about, stays, line_of, new_lines, salvage_lines};

use bodies::layout_of;
use image::{body_place, count_of, position_of, version_of};
use salvage_entries::{is_among, keep_entries, new_index};
use salvage_image::salvageable;
use writing::{put_decimal, put_octet, put_text};

#[tactic(auto, using(writing::proofs::Puts::put_then), unfolding(crate::specs::Lines::line_about))]
fn put_about(out: &mut [u8], at: usize, what: &[u8], index: u8) -> usize
    requires { at + length (line_about what.now index) ≤ length out.old }
    ensures { Put out.old at (line_about what.now index) out.new result }
{
    let number = put_text(out, at, what);
    let end = put_decimal(out, number, index as u32);
    put_octet(out, end, b'\n')
}

// A kept entry has its old index and its old position.
fn stays(x: &[u8], kept: &[u8], index: u8) -> bool
    requires { KeptOf x.now kept.now }
    ensures { result ≡ stays x.now index }
{
    let new = new_index(x, kept, index);
    let place = body_place(layout_of(version_of(x)), kept.len() as u8, new as u8);
    (new == index as usize) & (place == position_of(x, index))
}

#[tactic(auto, using(writing::proofs::Puts::put_none, crate::proofs::LineParts::among_is), unfolding(crate::specs::Lines::line_of))]
fn put_line(x: &[u8], kept: &[u8], index: u8, out: &mut [u8], at: usize) -> usize
    requires { KeptOf x.now kept.now × (at + length (line_of x.now index) ≤ length out.old) }
    ensures { Put out.old at (line_of x.now index) out.new result }
{
    if is_among(kept, index) {
        if stays(x, kept, index) {
            return at;
        }
        return put_about(out, at, b"moved ", index);
    }
    put_about(out, at, b"dropped ", index)
}

#[tactic(auto, using(writing::proofs::Puts::put_none, writing::proofs::Ends::end_none))]
fn put_each(x: &[u8], kept: &[u8], out: &mut [u8]) -> usize
    requires { KeptOf x.now kept.now × (length (new_lines x.now) ≤ length out.old) }
    ensures { Put out.old 0 (new_lines x.now) out.new result }
{
    let mut at = 0;
    for i in 0..count_of(x) {
        at = put_line(x, kept, i, out, at);
    }
    at
}

// The lines; of a refused input the one that says so.
#[tactic(auto, using(salvage_image::proofs::Sizes::taken, salvage_image::proofs::Sizes::kept_of, crate::proofs::LineParts::lines_short), unfolding(crate::specs::Lines::salvage_lines))]
pub(crate) fn put_lines(x: &[u8], out: &mut [u8]) -> usize
    requires { 352 ≤ length out.old }
    ensures { Put out.old 0 (salvage_lines x.now) out.new result }
{
    if salvageable(x) {
        let mut kept = [0u8; 255];
        let count = keep_entries(x, &mut kept);
        return put_each(x, &kept[..count], out);
    }
    put_text(out, 0, b"refused 1\n")
}
