// Copying: octets from a place on, and a piece to the front of an output or behind its first octets.
ghost use Rattle.std.specs.Prelude.{◌≡◌, ◌++◌, ◌+◌, length, take, drop};
ghost use Rattle.octets.specs.Lists.{octet, part};
ghost use Rattle.octets.specs.Output.{fronted};

use crate::octet_at;

// The octet i places behind a place, and 0 past the end. A sum that does not fit a usize is past the end of any slice.
pub fn octet_behind(s: &[u8], at: usize, i: usize) -> u8
    ensures { result ≡ octet s.now (at + i) }
{
    octet_at(s, at.saturating_add(i))
}

// As many octets as `out` takes, from a place on.
pub fn copy_at(s: &[u8], at: usize, out: &mut [u8])
    ensures { out.new ≡ part at (length out.old) s.now }
{
    for i in 0..out.len() {
        out[i] = octet_behind(s, at, i);
    }
}

// The block at a place.
pub fn block_at(s: &[u8], at: usize) -> [u8; 16]
    ensures { result ≡ part at 16 s.now }
{
    let mut block = [0u8; 16];
    copy_at(s, at, &mut block);
    block
}

// A piece to the front of `out`, whose rest stays. What has no room is not written. An octet a turn: of `copy_from_slice` the compiler makes a
// call of `memmove`, which the archive for C would then need from outside.
pub fn put(piece: &[u8], out: &mut [u8])
    ensures { out.new ≡ fronted piece.now out.old }
{
    if piece.len() <= out.len() {
        for i in 0..piece.len() {
            out[i] = piece[i];
        }
    }
}

// A piece behind the first `at` octets of `out`.
pub fn put_behind(piece: &[u8], at: usize, out: &mut [u8])
    ensures { out.new ≡ take at out.old ++ fronted piece.now (drop at out.old) }
{
    if at < out.len() {
        put(piece, &mut out[at..]);
    }
}
