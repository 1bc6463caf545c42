// Document 01, 'What comes back': the tests that come first in securing and in checking, 1, 2, 19, 3, 12, 4 in the papers' order. Nothing is
// changed.
ghost use Rattle.std.specs.Prelude.{◌≡◌, true, false};
ghost use Rattle.kinds.specs.Kinds.{framed, named};
ghost use Rattle.image.specs.Image.{valid_image};
ghost use Rattle.numbers.specs.Numbers.{agrees};
ghost use Rattle.judging.specs.Said.{kind_said, no_desk};
ghost use Rattle.judging.specs.Verdicts.{Admitted};
ghost use Rattle.judging.specs.Wants.{wanted, securing_wants, checking_wants};

use crate::wanted::{RECEIVING, SENDING, spi_on, wanted_by};
use association::find;
use frame::{field_ok, framing_obeyed};
use judging::{Admission, Refusal, Said, no_desk};
use kinds::{Framing, Kind, kind_of};
use numbers::{Numbers, test_standing};

// A frame of a kind, past 1, 2 and 19: 3, 12 and 4.
fn admit_kind(
    image: &[u8],
    numbers: Numbers,
    said: Said,
    framing: Framing,
    spi: u16,
    direction: u8,
    frame: &[u8],
    secured: bool,
) -> Result<Admission, Refusal>
    requires { (valid_image image.now ≡ true) × (agrees image.now numbers.last ≡ true) × (no_desk said.desk ≡ false) × (kind_said said ≡ framed framing) }
    ensures { Admitted result image.now numbers.last (wanted spi direction said frame.now) said secured frame.now }
{
    if !framing_obeyed(framing, frame, secured) {
        return Err(Refusal::BadFrame);
    }
    if !field_ok(framing, frame) {
        return Err(Refusal::WrongCheckField);
    }
    let wanted = wanted_by(spi, direction, said, framing, frame);
    let Some(entry) = find(image, wanted) else {
        return Err(Refusal::NoEntry);
    };
    Ok(Admission { framing, entry })
}

// `asked` is the kind that the caller's number names, if it names one.
fn admit(
    image: &[u8],
    numbers: Numbers,
    said: Said,
    asked: Option<Kind>,
    spi: u16,
    direction: u8,
    frame: &[u8],
    secured: bool,
) -> Result<Admission, Refusal>
    requires { asked ≡ named said.kind }
    ensures { Admitted result image.now numbers.last (wanted spi direction said frame.now) said secured frame.now }
{
    test_standing(image, numbers)?;
    if no_desk(said.desk) {
        return Err(Refusal::WrongDesk);
    }
    let Some(kind) = asked else {
        return Err(Refusal::BadFrame);
    };
    let framing = Framing {
        kind,
        field: said.field,
    };
    admit_kind(
        image, numbers, said, framing, spi, direction, frame, secured,
    )
}

// A clear frame that is to be sent under an SPI.
pub fn admit_sending(
    image: &[u8],
    numbers: Numbers,
    said: Said,
    spi: u16,
    frame: &[u8],
) -> Result<Admission, Refusal>
    ensures { Admitted result image.now numbers.last (securing_wants said spi frame.now) said false frame.now }
{
    let asked = kind_of(said.kind);
    admit(image, numbers, said, asked, spi, SENDING, frame, false)
}

// A secured frame that came in, under the SPI that it holds.
pub fn admit_receiving(
    image: &[u8],
    numbers: Numbers,
    said: Said,
    frame: &[u8],
) -> Result<Admission, Refusal>
    ensures { Admitted result image.now numbers.last (checking_wants said frame.now) said true frame.now }
{
    let asked = kind_of(said.kind);
    let spi = spi_on(asked, frame);
    admit(image, numbers, said, asked, spi, RECEIVING, frame, true)
}
