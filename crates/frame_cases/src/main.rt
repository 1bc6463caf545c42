// Runs frames of each kind, well formed and malformed, and writes for each a line of every answer that the crate `frame` gives on it.
// tools/frame_cases.py makes the frames and the expected answers from the paper alone.
#![tactic(auto)]

mod answers;

use answers::{Case, print_answers};
use lines::{each_line, read_octets};
use octets::{put_behind, two_at};
use std::io;

// The characters of a line.
const LINE: usize = 45;

// A line is 22 octets in hexadecimal. The first seven: kind, 1 if secured and else 0, 1 if it is said to end in a check field and else 0,
// length of the security header, octets of the mask that are used, length of the frame in two octets.
fn case_of(line: &[u8]) -> Case {
    let mut octets = [0u8; 7];
    read_octets(line, &mut octets);
    Case {
        kind: octets[0],
        is_secured: octets[1] == 1,
        field: octets[2] == 1,
        security: octets[3],
        reach: octets[4],
        length: two_at(&octets, 5) as usize,
    }
}

// The last octets of a frame of n, which is the front of `whole`.
fn put_last(last: &[u8; 2], n: usize, whole: &mut [u8]) {
    if 2 <= n {
        put_behind(last, n - 2, whole);
    }
}

// Whether the line is whole. Its other octets are the first seven of the frame and its last two, whose others are 0, and six of mask. The
// room is for the longest frame of the cases.
fn run_line(rt: &impl Print, line: &[u8]) -> io::Result<bool> {
    if line.len() < LINE {
        return Ok(false);
    }
    let mut whole = [0u8; 4096];
    let mut last = [0u8; 2];
    let mut mask = [0u8; 6];
    read_octets(&line[14..28], &mut whole);
    read_octets(&line[28..32], &mut last);
    read_octets(&line[32..44], &mut mask);
    let case = case_of(line);
    put_last(&last, case.length, &mut whole);
    print_answers(rt, case, &mask, &mut whole)?;
    println!(rt)?;
    Ok(true)
}

// The last line that is read, counted from 0.
const LAST_LINE: u64 = 65535;

fn main(rt: HostRuntime) -> io::Result<()> {
    each_line(&mut rt.reader(), &mut [0; LINE], |n, line| {
        Ok(run_line(&rt, line)? && n < LAST_LINE)
    })
}
