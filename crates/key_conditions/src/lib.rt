// Document 02, request 9: the key that a command names, whether it is there, and whether its state is the one that the procedure asks.
#![tactic(auto)]

ghost use Rattle.std.specs.Prelude.{◌≡◌};
ghost use Rattle.procedures.specs.Procedures.{procedure_is};

use command_form::SPI;
use image::{key_id_in, key_in};
use keys::PRE_ACTIVE;
use named_keys::{has_key, key_active, key_freed, key_there};
use octets::two_at;
use procedures::Procedure;

pub fn key_known(procedure: Procedure, image: &[u8], entry: u8, value: &[u8]) -> bool
    ensures { result ≡ (procedure_is procedure).knows image.now entry value.now }
{
    match procedure {
        Procedure::Start => key_there(image, key_id_in(image, entry)),
        Procedure::Stop => true,
        Procedure::Rekey => key_there(image, two_at(value, SPI)),
        Procedure::Expire => true,
        Procedure::SetNumber => true,
        Procedure::SetWindow => true,
        Procedure::Status => true,
        Procedure::ReadNumber => true,
        Procedure::Ping => true,
        Procedure::Activation => has_key(image, two_at(value, 0)),
        Procedure::Deactivation => has_key(image, two_at(value, 0)),
        Procedure::Inventory => true,
    }
}

pub fn key_ready(procedure: Procedure, image: &[u8], entry: u8, value: &[u8]) -> bool
    ensures { result ≡ (procedure_is procedure).ready image.now entry value.now }
{
    match procedure {
        Procedure::Start => key_active(image, key_id_in(image, entry)),
        Procedure::Stop => true,
        Procedure::Rekey => key_active(image, two_at(value, SPI)),
        Procedure::Expire => true,
        Procedure::SetNumber => true,
        Procedure::SetWindow => true,
        Procedure::Status => true,
        Procedure::ReadNumber => true,
        Procedure::Ping => true,
        Procedure::Activation => key_in(image, PRE_ACTIVE, two_at(value, 0)),
        Procedure::Deactivation => key_freed(image, two_at(value, 0)),
        Procedure::Inventory => true,
    }
}
