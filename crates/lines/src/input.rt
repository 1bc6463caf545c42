// Lines that are read.
ghost use Rattle.std.specs.Prelude.{◌≡◌, length, IfOk, OnErr};
ghost use Rattle.lines.specs.Input.{Line};

use std::io;
use std::io::Read;

// Reads the next line, with the line feed that ends it, to the front of `line`, and answers its length, which is 0 at the end of the
// input. What `line` has no room for counts as the next line. No contract can say which octets are read. Where reading fails, `line` has
// the length that it had, and nothing is said of what it holds.
pub fn read_line(from: &mut impl Read, line: &mut [u8]) -> io::Result<usize>
    ensures read { IfOk result (Line line.old line.new) }
    ensures failed { OnErr result (length line.new ≡ length line.old) }
{
    for n in 0..line.len() {
        let mut one = [0u8; 1];
        if from.read(&mut one)? == 0 {
            return Ok(n);
        }
        line[n] = one[0];
        if one[0] == b'\n' {
            return Ok(n + 1);
        }
    }
    Ok(line.len())
}

// Calls `each` with the number of every line, from 0, and its text, which is read to the front of `line`, until there are no more or `each`
// answers false. Of what is read no contract can say anything; `line` keeps its length, also where reading or `each` fails.
pub fn each_line<F: FnMut(u64, &[u8]) -> io::Result<bool>>(
    from: &mut impl Read,
    line: &mut [u8],
    mut each: F,
) -> io::Result<()>
    requires { (each : F) (n : _) (line : _) → F.pre each n line }
    ensures { length line.new ≡ length line.old }
{
    // A proved loop has to end, and nothing says that an input does: the bound is a number of lines that none has.
    for n in 0..u64::MAX {
        let count = read_line(from, line)?;
        if count == 0 || !each(n, &line[..count])? {
            break;
        }
    }
    Ok(())
}
