// Document 02, request 12: reads a damaged image from standard input, writes the image that can be made of it to standard output, and to
// standard error what became of its entries. Of a refused input there is no image, and the line that says so.
#![tactic(auto)]

use salvage_image::{LONGEST_SALVAGED, write_image};
use salvage_lines::{LONGEST_LINES, write_lines};
use std::io;
use std::io::{Read, Write};
use writing::text_in;

// One octet more than an image can have: of a longer input that many are read, and they are refused, as no image is that long.
const MOST_READ: u64 = 1795;

fn main(rt: HostRuntime) -> io::Result<()> {
    let mut damaged = Vec::new(rt.alloc());
    rt.reader().take(MOST_READ).read_to_end(&mut damaged)?;
    let mut image = [0u8; LONGEST_SALVAGED];
    let salvaged = write_image(damaged.as_slice(), &mut image);
    let mut lines = [0u8; LONGEST_LINES];
    let told = write_lines(damaged.as_slice(), &mut lines);
    rt.write_all(text_in(salvaged, &image))?;
    rt.stderr().write_all(text_in(told, &lines))
}
