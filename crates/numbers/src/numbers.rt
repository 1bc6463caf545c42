// Document 01, 'Managed numbers': the last number of each entry, held by value.
ghost use Rattle.std.specs.Prelude.{◌≡◌, true, ◌+◌, ◌≤◌, ◌<◌, ◌^◌, ◌/◌, eqb, length, set};
ghost use Rattle.octets.specs.Numbers.{number_at};
ghost use Rattle.marks.specs.Gray.{code_length, ungray};
ghost use Rattle.image.specs.Image.{valid_image};
ghost use Rattle.numbers.specs.Numbers.{number_of, loaded_number, loaded_numbers, agrees};
ghost use Rattle.numbers.specs.Numbers.{load_standing, load_numbers, standing_of};

use bodies::layout_of;
use image::{count_of, image_ok, mark_in, mark_place, version_of};
use marks::gray_of;
use octets::four_at;

#[derive(Clone, Copy)]
pub struct Numbers {
    pub last: [u32; 32],
}

// Why an image and numbers are not fit for a call: answers 1 and 2 of the paper.
#[derive(Clone, Copy)]
pub enum Unfit {
    BadImage,
    BadMarks,
}

impl Numbers {
    // The number of an entry, and 0 for one past the last.
    pub fn of(self, entry: u8) -> u32
        ensures { result ≡ number_of self.last entry }
    {
        if entry < 32 {
            return self.last[entry as usize];
        }
        0
    }

    // The old set is consumed, and the new one has n for one entry.
    pub fn advance(mut self, entry: u8, n: u32) -> Numbers
        ensures { result.last ≡ set self.last entry n }
    {
        if entry < 32 {
            self.last[entry as usize] = n;
        }
        self
    }
}

// The last number that a mark allows, so that the first one after a load is new.
fn loaded_number(mark: u32) -> u32
    requires { mark < 2 ^ 26 }
    ensures { result ≡ loaded_number mark }
{
    64 * mark + 63
}

fn loaded_numbers(image: &[u8]) -> Numbers
    requires { valid_image image.now ≡ true }
    ensures { result.last ≡ loaded_numbers image.now }
{
    let count = count_of(image);
    let mut next = Numbers { last: [0; 32] };
    for i in 0..count {
        next = next.advance(i, loaded_number(mark_in(image, i)));
    }
    next
}

// A load: every load is a restart. Refused, it leaves the numbers as they were.
pub fn load(image: &[u8], numbers: &mut Numbers) -> Result<(), Unfit>
    ensures standing_value { result ≡ load_standing image.now }
    ensures last_value { numbers.new.last ≡ load_numbers image.now numbers.old.last }
{
    if image_ok(image) {
        *numbers = loaded_numbers(image);
        return Ok(());
    }
    Err(Unfit::BadImage)
}

// The mark that the number asks for is coded, and not the image's mark read: coding is one step, and reading five.
fn agrees_at(image: &[u8], at: u16, last: u32) -> bool
    requires { at + code_length ≤ length image.now }
    ensures { result ≡ eqb (last / 64) (ungray (number_at at code_length image.now)) }
{
    let from = at as usize;
    let end = from + 4;
    four_at(&image[from..end], 0) == gray_of(last / 64)
}

fn marks_agree(image: &[u8], numbers: Numbers) -> bool
    requires { valid_image image.now ≡ true }
    ensures { result ≡ agrees image.now numbers.last }
{
    let layout = layout_of(version_of(image));
    let count = count_of(image);
    let mut ok = true;
    for i in 0..count {
        let last = numbers.last[i as usize];
        ok = ok & agrees_at(image, mark_place(layout, count, i), last);
    }
    ok
}

// Whether the image keeps every rule, and then whether the numbers agree with the marks.
pub fn test_standing(image: &[u8], numbers: Numbers) -> Result<(), Unfit>
    ensures { result ≡ standing_of image.now numbers.last }
{
    if !image_ok(image) {
        return Err(Unfit::BadImage);
    }
    if !marks_agree(image, numbers) {
        return Err(Unfit::BadMarks);
    }
    Ok(())
}
