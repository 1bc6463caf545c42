// The procedure that a command calls.
ghost use Rattle.std.specs.Prelude.{◌≡◌};
ghost use Rattle.command_form.specs.Form.{tag_of};
ghost use Rattle.procedures.specs.Procedures.{key_command, called};

use crate::procedure::{Procedure, with_tag};
use command_form::{measured, value_length};
use octets::octet_at;

// Document 02, request 10: the key commands, which the key office alone gives. The tag tells them, whatever their length.
pub fn key_command(command: &[u8]) -> bool
    ensures { result ≡ key_command (tag_of command.now) }
{
    let tag = octet_at(command, 0);
    (tag == 0x02) | (tag == 0x03) | (tag == 0x07)
}

// By the command's tag, where its length is right.
pub fn called_by(command: &[u8]) -> Option<Procedure>
    ensures { result ≡ called command.now }
{
    let procedure = with_tag(octet_at(command, 0))?;
    if measured(command) & procedure.sized(value_length(command)) {
        return Some(procedure);
    }
    None
}
