// Document 01, 'Managed numbers': the octet stores that raise the mark of an entry, one at a time.
ghost use Rattle.std.specs.Prelude.{◌≡◌, ◌&&◌, ltb};
ghost use Rattle.image.specs.Image.{count_of, laid_out};
ghost use Rattle.numbers.specs.Stores.{plan_for, stores_made, after_stores};

use image::{count_of, laid_out, mark_at, mark_in};
use marks::{Plan, make};

fn has_entry(image: &[u8], index: u8) -> bool
    ensures { result ≡ (laid_out image.now && ltb index (count_of image.now)) }
{
    laid_out(image) & (index < count_of(image))
}

// The stores that raise the mark of an entry to that of the number n; none for an entry that the image does not have.
pub fn plan_for(image: &[u8], entry: u8, n: u32) -> Plan
    ensures { result ≡ plan_for image.now entry n }
{
    if has_entry(image, entry) {
        return Plan::Raise {
            at: mark_at(image, entry),
            from: mark_in(image, entry),
            to: n / 64,
        };
    }
    Plan::Nothing
}

// The first j of them, and nothing else; how many they are. An image that is valid stays so, whatever j.
pub fn raise(image: &mut [u8], entry: u8, n: u32, j: u32) -> u32
    ensures { (result ≡ stores_made image.old entry n j) × (image.new ≡ after_stores image.old entry n j) }
{
    make(image, plan_for(image, entry, n), j)
}
