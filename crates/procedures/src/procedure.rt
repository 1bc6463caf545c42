// One enum of procedures, which answers for whichever a command calls: its tag, the length of its value, whether it names an association,
// and the states in which it may come.
ghost use Rattle.std.specs.Prelude.{◌≡◌};
ghost use Rattle.procedures.specs.Procedures.{start, procedure_is, procedures, with_tag};

use bodies::{KEYED, OPERATIONAL, UNKEYED};
use command_form::{CHANNEL, KEY_ID, SPI};

#[derive(Clone, Copy)]
pub enum Procedure {
    Start,
    Stop,
    Rekey,
    Expire,
    SetNumber,
    SetWindow,
    Status,
    ReadNumber,
    Ping,
    Activation,
    Deactivation,
    Inventory,
}

// The procedure that has a tag, if one has it.
pub(crate) fn with_tag(tag: u8) -> Option<Procedure>
    ensures { result ≡ with_tag tag procedures }
{
    match tag {
        0x1B => Some(Procedure::Start),
        0x1E => Some(Procedure::Stop),
        0x16 => Some(Procedure::Rekey),
        0x19 => Some(Procedure::Expire),
        0x1A => Some(Procedure::SetNumber),
        0x15 => Some(Procedure::SetWindow),
        0x1F => Some(Procedure::Status),
        0x10 => Some(Procedure::ReadNumber),
        0x31 => Some(Procedure::Ping),
        0x02 => Some(Procedure::Activation),
        0x03 => Some(Procedure::Deactivation),
        0x07 => Some(Procedure::Inventory),
        _ => None,
    }
}

// The octets of a window and of a number behind an SPI.
const WINDOW: usize = 2;

const NUMBER: usize = 12;

// SPI, then one or more channels.
fn channelled(n: usize) -> bool
    ensures { result ≡ start.sized n }
{
    if n < SPI + CHANNEL {
        return false;
    }
    (n - SPI) % CHANNEL == 0
}

impl Procedure {
    pub fn sized(self, n: usize) -> bool
        ensures { result ≡ (procedure_is self).sized n }
    {
        match self {
            Procedure::Start => channelled(n),
            Procedure::Stop => n == SPI,
            Procedure::Rekey => n == SPI + KEY_ID + NUMBER,
            Procedure::Expire => n == SPI,
            Procedure::SetNumber => n == SPI + NUMBER,
            Procedure::SetWindow => n == SPI + WINDOW,
            Procedure::Status => n == SPI,
            Procedure::ReadNumber => n == SPI,
            Procedure::Ping => n == 0,
            Procedure::Activation => n == KEY_ID,
            Procedure::Deactivation => n == KEY_ID,
            Procedure::Inventory => n == KEY_ID + KEY_ID,
        }
    }

    pub fn names(self) -> bool
        ensures { result ≡ (procedure_is self).names }
    {
        match self {
            Procedure::Start => true,
            Procedure::Stop => true,
            Procedure::Rekey => true,
            Procedure::Expire => true,
            Procedure::SetNumber => true,
            Procedure::SetWindow => true,
            Procedure::Status => true,
            Procedure::ReadNumber => true,
            Procedure::Ping => false,
            Procedure::Activation => false,
            Procedure::Deactivation => false,
            Procedure::Inventory => false,
        }
    }

    pub fn asks(self, state: u8) -> bool
        ensures { result ≡ (procedure_is self).asks state }
    {
        match self {
            Procedure::Start => KEYED == state,
            Procedure::Stop => OPERATIONAL == state,
            Procedure::Rekey => UNKEYED == state,
            Procedure::Expire => KEYED == state,
            Procedure::SetNumber => true,
            Procedure::SetWindow => !(state == OPERATIONAL),
            Procedure::Status => true,
            Procedure::ReadNumber => true,
            Procedure::Ping => true,
            Procedure::Activation => true,
            Procedure::Deactivation => true,
            Procedure::Inventory => true,
        }
    }
}
