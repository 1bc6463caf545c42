// Document 01, 'Frames': the header as the MAC covers it, each octet ANDed with the mask.
ghost use Rattle.std.specs.Prelude.{◌≡◌};
ghost use Rattle.octets.specs.Lists.{octet};
ghost use Rattle.octets.specs.Output.{fronted};
ghost use Rattle.kinds.specs.Kinds.{framed};
ghost use Rattle.masking.specs.Masked.{masked, masked_header, answered};

use kinds::Framing;
use octets::octet_at;

// Octet i under the mask; one that the mask does not reach is as it was.
fn masked_octet(mask: &[u8], frame: &[u8], i: usize) -> u8
    ensures { result ≡ octet (masked mask.now frame.now) i }
{
    let x = octet_at(frame, i);
    if i < mask.len() {
        return x & mask[i];
    }
    x
}

// The masked header to the front of `out`, whose rest stays, and how many octets it has; None, and `out` as it was, where they find no room.
// Only the header's own octets are masked, so a security header that lies in `out` behind them is not.
pub fn mask_header(framing: Framing, mask: &[u8], frame: &[u8], out: &mut [u8]) -> Option<usize>
    ensures { (result ≡ answered (masked_header (framed framing) mask.now frame.now) out.old) × (out.new ≡ fronted (masked_header (framed framing) mask.now frame.now) out.old) }
{
    let kind = framing.kind;
    let count = kind.header_length(frame).min(frame.len());
    if out.len() < count {
        return None;
    }
    for i in 0..count {
        out[i] = masked_octet(mask, frame, i);
    }
    Some(count)
}
