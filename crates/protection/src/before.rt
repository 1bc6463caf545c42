// Document 01, 'Frames', and document 02, request 6: what the MAC covers before the data.
ghost use Rattle.std.specs.Prelude.{◌≡◌, ◌++◌, ◌+◌, ◌≤◌, length};
ghost use Rattle.kinds.specs.Kinds.{framed};
ghost use Rattle.masking.specs.Masked.{masked};
ghost use Rattle.frame.specs.Parts.{header_of, security_of};
ghost use Rattle.octets.specs.Output.{written};

use kinds::Framing;
use masking::mask_header;
use octets::put_behind;

// The octets of the longest header, that of TM with the longest secondary header, and of the longer security header.
const MOST_HEADER: usize = 6 + 64;

const MOST_SECURITY: usize = 14;

pub const MOST_BEFORE: usize = MOST_HEADER + MOST_SECURITY;

// The masked header and the security header of a frame, to the front of `out`; how many octets they are. The mask reaches the primary header
// alone.
pub fn cover(
    framing: Framing,
    mask: [u8; 6],
    security: usize,
    frame: &[u8],
    out: &mut [u8],
) -> usize
    requires { ((framed framing).header frame.now + security ≤ length frame.now) × ((framed framing).header frame.now + security ≤ length out.old) }
    ensures value { result ≡ (framed framing).header frame.now + security }
    ensures out_after { out.new ≡ written (masked mask (header_of (framed framing) frame.now) ++ security_of (framed framing) security frame.now) out.old }
{
    let kind = framing.kind;
    let header = kind.header_length(frame);
    let end = header + security;
    mask_header(framing, &mask, frame, out);
    put_behind(&frame[header..end], header, out);
    end
}
