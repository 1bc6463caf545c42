// Document 01, 'The listing program': reads an image from standard input and writes its listing to standard output.
#![tactic(auto)]

use image::LONGEST_IMAGE;
use listing_text::{LONGEST, write_listing};
use std::io;
use std::io::Read;
use writing::text_in;

// One octet more than an image can have: of a longer input that many are read, and they are refused, as no image is that long.
const MOST_READ: u64 = LONGEST_IMAGE as u64 + 1;

fn main(rt: HostRuntime) -> io::Result<()> {
    let mut image = Vec::new(rt.alloc());
    rt.reader().take(MOST_READ).read_to_end(&mut image)?;
    let mut text = [0u8; LONGEST];
    let listed = write_listing(image.as_slice(), &mut text);
    rt.write_all(text_in(listed, &text))
}
