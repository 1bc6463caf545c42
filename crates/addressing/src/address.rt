// The tests that come first of a command, 1, 2, 19, 13 and 14 in the papers' order. Nothing is changed.
ghost use Rattle.std.specs.Prelude.{◌≡◌, true};
ghost use Rattle.image.specs.Image.{valid_image};
ghost use Rattle.numbers.specs.Numbers.{agrees};
ghost use Rattle.command_form.specs.Form.{value_of};
ghost use Rattle.procedures.specs.Procedures.{procedure_is};
ghost use Rattle.addressing.specs.Addressing.{wrong_desk, entry_named};
ghost use Rattle.addressing.specs.Steps.{Addressed};

use association::find_spi;
use bodies::KEY_OFFICE;
use command_form::FRONT;
use judging::{Refusal, no_desk};
use numbers::{Numbers, test_standing};
use octets::two_at;
use procedures::{Procedure, called_by, key_command};

// The procedure that a command calls and the entry that it names.
#[derive(Clone, Copy)]
pub struct Address {
    pub procedure: Procedure,
    pub entry: u8,
}

// A number that is no desk's, or a key command from another desk than the key office's.
fn wrong_desk(desk: u8, command: &[u8]) -> bool
    ensures { result ≡ wrong_desk desk command.now }
{
    no_desk(desk) | (key_command(command) & !(desk == KEY_OFFICE))
}

// The entry that a command names, to that desk. One that names none gets entry 0, which it neither reads nor changes.
fn entry_named(image: &[u8], procedure: Procedure, desk: u8, command: &[u8]) -> Option<u8>
    ensures { result ≡ entry_named (procedure_is procedure) image.now desk (value_of command.now) }
{
    if procedure.names() {
        return find_spi(image, desk, two_at(command, FRONT));
    }
    Some(0)
}

// Past 1 and 2: 19, 13 and 14.
fn address_within(
    image: &[u8],
    numbers: Numbers,
    desk: u8,
    command: &[u8],
) -> Result<Address, Refusal>
    requires { (valid_image image.now ≡ true) × (agrees image.now numbers.last ≡ true) }
    ensures { Addressed result image.now numbers.last desk command.now }
{
    if wrong_desk(desk, command) {
        return Err(Refusal::WrongDesk);
    }
    let Some(procedure) = called_by(command) else {
        return Err(Refusal::BadCommand);
    };
    let Some(entry) = entry_named(image, procedure, desk, command) else {
        return Err(Refusal::UnknownSpi);
    };
    Ok(Address { procedure, entry })
}

// The address of a command, or the first refusal.
pub fn address_of(
    image: &[u8],
    numbers: Numbers,
    desk: u8,
    command: &[u8],
) -> Result<Address, Refusal>
    ensures { Addressed result image.now numbers.last desk command.now }
{
    test_standing(image, numbers)?;
    address_within(image, numbers, desk, command)
}
