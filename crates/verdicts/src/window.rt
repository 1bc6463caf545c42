// Document 01, 'Managed numbers': the window's test of a number that came in.
ghost use Rattle.std.specs.Prelude.{◌≡◌, ◌+◌, ◌*◌};
ghost use Rattle.numbers.specs.Numbers.{accepts};

use security_header::Sequence;

// The window's test, over whole numbers: nothing is subtracted, and nothing wraps.
pub fn accepts(last: u32, window: u16, n: Sequence) -> bool
    ensures { result ≡ accepts last window (n.above * 4294967296 + n.number) }
{
    let number = n.number;
    (n.above == 0) & (last < number) & (number as u64 <= last as u64 + window as u64)
}
