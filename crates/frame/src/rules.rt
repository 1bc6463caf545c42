// Document 01, 'What comes back', answer 3: whether a frame obeys the kind that a number names.
ghost use Rattle.std.specs.Prelude.{◌≡◌};
ghost use Rattle.kinds.specs.Kinds.{kind_of, with_check_field, framed};
ghost use Rattle.frame.specs.Rules.{least, obeys};

use kinds::{Framing, kind_of};

// The least octets between header and trailer: one of data, or the SPI.
fn least_between(secured: bool) -> usize
    ensures { result ≡ least secured }
{
    if secured { 2 } else { 1 }
}

pub fn framing_obeyed(framing: Framing, frame: &[u8], secured: bool) -> bool
    ensures { result ≡ obeys (framed framing) frame.now secured }
{
    let kind = framing.kind;
    let least = kind.header_length(frame) + least_between(secured) + framing.trailer_length(frame);
    framing.keeps_rules(frame)
        & kind.counts_length(frame)
        & (frame.len() <= kind.largest())
        & (least <= frame.len())
}

// No frame obeys a number that names no kind.
pub fn obeys(number: u8, field: bool, frame: &[u8], secured: bool) -> bool
    ensures { result ≡ obeys (with_check_field field (kind_of number)) frame.now secured }
{
    match kind_of(number) {
        Some(kind) => framing_obeyed(Framing { kind, field }, frame, secured),
        None => false,
    }
}
