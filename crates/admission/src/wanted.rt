// Document 01, 'What comes back', answer 4: what a call and its frame ask of an entry.
ghost use Rattle.std.specs.Prelude.{◌≡◌};
ghost use Rattle.kinds.specs.Kinds.{framed, kind_behind};
ghost use Rattle.protection.specs.Protection.{spi_in};
ghost use Rattle.judging.specs.Said.{kind_said};
ghost use Rattle.judging.specs.Wants.{wanted};

use association::Wanted;
use judging::Said;
use kinds::{Framing, Kind, kind_of};
use octets::two_at;

pub(crate) const SENDING: u8 = 1;

pub(crate) const RECEIVING: u8 = 2;

// The framing is what the caller says of the frame.
pub(crate) fn wanted_by(
    spi: u16,
    direction: u8,
    said: Said,
    framing: Framing,
    frame: &[u8],
) -> Wanted
    requires { kind_said said ≡ framed framing }
    ensures { result ≡ wanted spi direction said frame.now }
{
    let kind = framing.kind;
    Wanted {
        desk: said.desk,
        spi,
        direction,
        kind: said.kind,
        spacecraft: kind.spacecraft(frame),
        channel: kind.channel(frame),
        map: kind.map(frame),
    }
}

// The SPI on a secured frame; a number that names no kind has no header before it.
pub(crate) fn spi_on(asked: Option<Kind>, frame: &[u8]) -> u16
    ensures { result ≡ spi_in (kind_behind asked) frame.now }
{
    match asked {
        Some(kind) => two_at(frame, kind.header_length(frame)),
        None => two_at(frame, 0),
    }
}

// The SPI on a frame that came in, whether or not it is admitted.
pub fn spi_received(said: Said, frame: &[u8]) -> u16
    ensures { result ≡ spi_in (kind_said said) frame.now }
{
    spi_on(kind_of(said.kind), frame)
}
