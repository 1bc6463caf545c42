// Writes the listings of many images, by the function that the listing program calls. The input has for each image a line that begins
// with `#` and names the case, which is written as it is, and a line of its octets in hexadecimal. tools/listing_cases.py makes the images
// and the expected listings from the paper alone.
#![tactic(auto)]

use lines::{each_line, read_octets};
use listing_text::{LONGEST, write_listing};
use std::io;
use writing::text_in;

fn print_listing(rt: &impl Print, image: &[u8]) -> io::Result<()> {
    let mut text = [0u8; LONGEST];
    let listed = write_listing(image, &mut text);
    rt.write_all(text_in(listed, &text))
}

// Room for one key more than the longest image has.
fn list(rt: &impl Print, line: &[u8]) -> io::Result<()> {
    let mut image = [0u8; 3146];
    let count = read_octets(line, &mut image);
    print_listing(rt, &image[..count])
}

// The last line that is read, counted from 0.
const LAST_LINE: u64 = 65535;

fn main(rt: HostRuntime) -> io::Result<()> {
    each_line(&mut rt.reader(), &mut [0; 6293], |n, line| {
        if line.starts_with(b"#") {
            rt.write_all(line)?;
        } else {
            list(&rt, line)?;
        }
        Ok(n < LAST_LINE)
    })
}
