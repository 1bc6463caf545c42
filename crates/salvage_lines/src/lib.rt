// Document 02, request 12: the lines that say what became of the entries of a damaged image. The program around it reads and writes.
#![tactic(auto)]

mod lines_text;

ghost use Rattle.std.specs.Prelude.{◌≡◌};
ghost use Rattle.octets.specs.Output.{fronted};
ghost use Rattle.writing.specs.Output.{written_to};
ghost use Rattle.salvage_lines.specs.Lines.{salvage_lines};

use lines_text::put_lines;
use writing::copy_front;

// No lines are longer, as proofs/LineParts.antt shows: 32 of 11 octets.
pub const LONGEST_LINES: usize = 352;

// The lines to the front of `out`, whose rest stays; of a refused input the line that says so. Where `out` has no room for all of them, nothing
// is written and the answer is None.
#[tactic(auto, using(crate::proofs::LineParts::longest_lines))]
pub fn write_lines(x: &[u8], out: &mut [u8]) -> Option<usize>
    ensures value { result ≡ written_to (salvage_lines x.now) out.old }
    ensures out_after { out.new ≡ fronted (salvage_lines x.now) out.old }
{
    let mut lines = [0u8; LONGEST_LINES];
    let count = put_lines(x, &mut lines);
    copy_front(&lines[..count], out)
}
