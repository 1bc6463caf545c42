// A file of vectors, a line each.
use crate::tally::Tally;
use lines::each_line;
use std::io::Read;
use std::rt::Files;
use std::{fs, io};

// The tally of the lines that are tested.
fn tally<F: Fn(u64, &[u8]) -> Option<bool>>(file: &mut impl Read, test: F) -> io::Result<Tally>
    requires { (f : F) (n : _) (line : _) → F.pre f n line }
{
    let mut tally = Tally::none();
    each_line(file, &mut [0; 640], |n, line| {
        if let Some(is_right) = test(n, line) {
            tally = tally.with(is_right);
        }
        Ok(true)
    })?;
    Ok(tally)
}

// Tests each line of a file, and writes a line as `ECBGFSbox256: 5 encryptions, 0 differ`. `test` answers whether the n-th line, counted
// from 0, is right, and None for a line that is not counted. Of a file that cannot be opened the path and the reason are written to standard
// error.
pub fn run_file<F: Fn(u64, &[u8]) -> Option<bool>>(
    rt: &(impl Files + Print + Eprint),
    path: &str,
    name: &str,
    what: &str,
    test: F,
) -> io::Result<()>
    requires { (f : F) (n : _) (line : _) → F.pre f n line }
{
    let mut file = match fs::open(rt, path) {
        Ok(file) => file,
        Err(error) => return eprintln!(rt; "{path}: {error}"),
    };
    let Tally { ran, differ } = tally(&mut file, test)?;
    println!(rt; "{name}: {ran} {what}, {differ} differ")
}
