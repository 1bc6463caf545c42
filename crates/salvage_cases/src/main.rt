// Salvages many inputs, by the functions that the salvage program calls. The input has for each case a line that begins with `#` and names
// it, which is written as it is, and a line of octets in hexadecimal. Behind the name come the lines for standard error, and then the image in
// hexadecimal. tools/salvage_cases.py makes the inputs and what is expected of them from the papers alone.
#![tactic(auto)]

use lines::{Hexadecimal, each_line, read_octets};
use salvage_image::{LONGEST_SALVAGED, write_image};
use salvage_lines::{LONGEST_LINES, write_lines};
use std::io;
use writing::text_in;

fn print_lines(rt: &impl Print, damaged: &[u8]) -> io::Result<()> {
    let mut lines = [0u8; LONGEST_LINES];
    let told = write_lines(damaged, &mut lines);
    rt.write_all(text_in(told, &lines))
}

fn print_image(rt: &impl Print, damaged: &[u8]) -> io::Result<()> {
    let mut image = [0u8; LONGEST_SALVAGED];
    let salvaged = write_image(damaged, &mut image);
    println!(rt; "{}", Hexadecimal(text_in(salvaged, &image)))
}

// Room for the octets that 33 entries would have, one entry more than an image may have.
fn salvage(rt: &impl Print, line: &[u8]) -> io::Result<()> {
    let mut damaged = [0u8; 1850];
    let count = read_octets(line, &mut damaged);
    print_lines(rt, &damaged[..count])?;
    print_image(rt, &damaged[..count])
}

// The last line that is read, counted from 0.
const LAST_LINE: u64 = 65535;

fn main(rt: HostRuntime) -> io::Result<()> {
    each_line(&mut rt.reader(), &mut [0; 3701], |n, line| {
        if line.starts_with(b"#") {
            rt.write_all(line)?;
        } else {
            salvage(&rt, line)?;
        }
        Ok(n < LAST_LINE)
    })
}
