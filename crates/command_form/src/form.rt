// The form of a command: tag, length field, value.
ghost use Rattle.std.specs.Prelude.{◌≡◌, length};
ghost use Rattle.command_form.specs.Form.{value_of, measured, spi_named};

use octets::two_at;

// The octets before the value: tag and length field.
pub const FRONT: usize = 3;

// The octets of an SPI, and of what may stand behind it.
pub const SPI: usize = 2;

pub const CHANNEL: usize = 4;

pub const KEY_ID: usize = 2;

// The octets of the value.
pub fn value_length(command: &[u8]) -> usize
    ensures { result ≡ length (value_of command.now) }
{
    if command.len() < FRONT {
        return 0;
    }
    command.len() - FRONT
}

// The length field holds how many octets stand behind it: none is missing, and none trails.
pub fn measured(command: &[u8]) -> bool
    ensures { result ≡ measured command.now }
{
    (FRONT <= command.len()) & (two_at(command, 1) as usize == value_length(command))
}

// Every value that names an association starts with its SPI.
pub fn spi_named(value: &[u8]) -> u16
    ensures { result ≡ spi_named value.now }
{
    two_at(value, 0)
}
