// Document 01, 'The listing program': the lines of a listing, the title and one for each entry, or the one of a refused image.
ghost use Rattle.std.specs.Prelude.{◌≡◌, true, ◌++◌, ◌+◌, ◌≤◌, length};
ghost use Rattle.image.specs.Image.{count_of, valid_image};
ghost use Rattle.listing_text.specs.Listing.{title, next, line, lines, listing};
ghost use Rattle.listing_text.specs.Listing.{columns as Listing·columns};
ghost use Rattle.writing.specs.Output.{Put};

use crate::fields::put_fields;
use association::{Entry, entry_at};
use image::{count_of, image_ok};
use writing::{put_decimal, put_octet, put_text};

// Document 01, 'Managed numbers': the greatest that a number may be.
const GREATEST: u64 = 4294967295;

// The next number that a mark allows, 64m + 64; after the greatest there is none.
#[tactic(auto, unfolding(crate::specs::Listing::next))]
fn put_next(out: &mut [u8], at: usize, mark: u32) -> usize
    requires { at + length (next mark) ≤ length out.old }
    ensures { Put out.old at (next mark) out.new result }
{
    let number = 64 * (mark as u64) + 64;
    if number <= GREATEST {
        return put_decimal(out, at, number as u32);
    }
    put_text(out, at, b"none")
}

// The numbers of a line before the next one, in the title's order.
fn columns(entry: Entry) -> [u32; 6]
    ensures { result ≡ Listing·columns entry }
{
    [
        entry.spi as u32,
        entry.service as u32,
        entry.kind as u32,
        entry.direction as u32,
        entry.state as u32,
        entry.window as u32,
    ]
}

#[tactic(auto, using(writing::proofs::Puts::put_then), unfolding(crate::specs::Listing::line))]
fn put_line(out: &mut [u8], at: usize, entry: Entry) -> usize
    requires { at + length (line entry) ≤ length out.old }
    ensures { Put out.old at (line entry) out.new result }
{
    let next = put_fields(out, at, columns(entry));
    let end = put_next(out, next, entry.mark);
    put_octet(out, end, b'\n')
}

// The lines of a valid image, whose entries leave room for each other in an output that has room for the longest listing.
#[tactic(auto, using(crate::proofs::Parts::lines_none, crate::proofs::Lengths::line_fits, writing::proofs::Puts::put_none))]
fn put_lines(image: &[u8], out: &mut [u8]) -> usize
    requires { (valid_image image.now ≡ true) × (1197 ≤ length out.old) }
    ensures { Put out.old 0 (title ++ lines image.now (count_of image.now)) out.new result }
{
    let mut at = put_text(out, 0, b"spi service kind direction state window next\n");
    for i in 0..count_of(image) {
        at = put_line(out, at, entry_at(image, i));
    }
    at
}

// The listing; a refused image, which an input longer than every image is too, has the one line.
#[tactic(auto, unfolding(crate::specs::Listing::listing))]
pub(crate) fn put_listing(image: &[u8], out: &mut [u8]) -> usize
    requires { 1197 ≤ length out.old }
    ensures { Put out.old 0 (listing image.now) out.new result }
{
    if image_ok(image) {
        return put_lines(image, out);
    }
    put_text(out, 0, b"refused 1\n")
}
