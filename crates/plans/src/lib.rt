// Document 02, requests 5 and 9: what a command stores, as a plan, before any of it is stored. Nothing is changed.
#![tactic(auto)]

ghost use Rattle.std.specs.Prelude.{◌≡◌, [], ◌∷◌, ◌<◌};
ghost use Rattle.marks.specs.Stores.{stores_of};
ghost use Rattle.bodies.specs.Layout.{state_place, most_body};
ghost use Rattle.command_form.specs.Form.{key_named};
ghost use Rattle.procedures.specs.Procedures.{rekey, set_window, octet_in, key_state_in, procedure_is};

use bodies::{KEYED, OPERATIONAL, STATE, UNKEYED, WINDOW, layout_of};
use command_form::SPI;
use image::{body_at, has_part, key_with, part_at, version_of};
use keys::{ACTIVE, DEACTIVATED, key_state_place};
use marks::{Plan, Store};
use numbers::plan_for;
use octets::{octet_at, two_at};
use procedures::Procedure;

// One octet of the body of an entry.
fn octet_in(image: &[u8], entry: u8, place: usize, value: u8) -> Store
    requires { place < most_body }
    ensures { result ≡ octet_in image.now entry place value }
{
    Store {
        at: body_at(image, entry) as usize + place,
        value,
    }
}

fn move_to(image: &[u8], entry: u8, state: u8) -> Plan
    ensures { stores_of result ≡ octet_in image.now entry state_place state ∷ [] }
{
    Plan::One(octet_in(image, entry, STATE, state))
}

// The high octet of the window, then its low one.
fn change_window(image: &[u8], entry: u8, value: &[u8]) -> Plan
    ensures { stores_of result ≡ set_window.stores image.now entry 0 value.now }
{
    Plan::Two(
        octet_in(image, entry, WINDOW, octet_at(value, SPI)),
        octet_in(image, entry, WINDOW + 1, octet_at(value, SPI + 1)),
    )
}

// The ID of the key, high octet first, where the image has a key part; and the state last.
fn change_key(image: &[u8], entry: u8, value: &[u8]) -> Plan
    ensures { stores_of result ≡ rekey.stores image.now entry 0 value.now }
{
    if has_part(image) {
        let at = layout_of(version_of(image)).key as usize;
        return Plan::Three(
            octet_in(image, entry, at, octet_at(value, SPI)),
            octet_in(image, entry, at + 1, octet_at(value, SPI + 1)),
            octet_in(image, entry, STATE, KEYED),
        );
    }
    move_to(image, entry, KEYED)
}

// The state of the key that a value names.
fn turn_to(image: &[u8], value: &[u8], state: u8) -> Plan
    ensures { stores_of result ≡ key_state_in image.now (key_named value.now) state ∷ [] }
{
    let key = key_with(image, two_at(value, 0));
    Plan::One(Store {
        at: key_state_place(part_at(image), key),
        value: state,
    })
}

// The stores of a procedure that gives an entry that number.
pub fn plan_of(procedure: Procedure, image: &[u8], entry: u8, number: u32, value: &[u8]) -> Plan
    ensures { stores_of result ≡ (procedure_is procedure).stores image.now entry number value.now }
{
    match procedure {
        Procedure::Start => move_to(image, entry, OPERATIONAL),
        Procedure::Stop => move_to(image, entry, KEYED),
        Procedure::Rekey => change_key(image, entry, value),
        Procedure::Expire => move_to(image, entry, UNKEYED),
        Procedure::SetNumber => plan_for(image, entry, number),
        Procedure::SetWindow => change_window(image, entry, value),
        Procedure::Status => Plan::Nothing,
        Procedure::ReadNumber => Plan::Nothing,
        Procedure::Ping => Plan::Nothing,
        Procedure::Activation => turn_to(image, value, ACTIVE),
        Procedure::Deactivation => turn_to(image, value, DEACTIVATED),
        Procedure::Inventory => Plan::Nothing,
    }
}
