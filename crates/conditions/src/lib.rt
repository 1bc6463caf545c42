// Document 02, requests 5 and 9: what a procedure asks of the value of a command, of the association and of its last number; and the number
// that the association then has. Nothing is changed.
#![tactic(auto)]

ghost use Rattle.std.specs.Prelude.{◌≡◌, [], eqb};
ghost use Rattle.image.specs.Image.{version_of, body_of};
ghost use Rattle.command_form.specs.Form.{number_behind_key};
ghost use Rattle.procedures.specs.Procedures.{start, rekey, set_number, procedure_is};
ghost use Rattle.conditions.specs.Steps.{Renumbered};

use bodies::{layout_of, window_fits, window_of};
use command_form::{KEY_ID, SPI, channels_right};
use image::{body_at, version_of};
use octets::{four_at, two_at};
use procedures::Procedure;
use security_header::long_number;
use verdicts::accepts;

// The most by which a number may be set higher.
const MOST_RISE: u16 = 1024;

// A start: each channel is the body's, and the window is one with which it may serve.
fn start_allowed(image: &[u8], entry: u8, value: &[u8]) -> bool
    ensures { result ≡ start.allows (version_of image.now) (body_of image.now entry) 0 value.now }
{
    let version = version_of(image);
    let at = body_at(image, entry);
    channels_right(image, version, at, value) & window_fits(window_of(image, version, at))
}

// The twelve octets of a number behind a key's ID are all 0.
fn number_is_0(value: &[u8]) -> bool
    ensures { result ≡ eqb (number_behind_key value.now) 0 }
{
    let at = SPI + KEY_ID;
    (four_at(value, at) == 0) & (four_at(value, at + 4) == 0) & (four_at(value, at + 8) == 0)
}

// A rekey: no number, and in a version without a key part no key's ID.
fn rekey_allowed(version: u8, value: &[u8]) -> bool
    ensures { result ≡ rekey.allows version [] 0 value.now }
{
    (layout_of(version).keys | (two_at(value, SPI) == 0)) & number_is_0(value)
}

// A set number: above the last, by no more than a set number may rise, and not above the greatest.
fn rise_allowed(last: u32, value: &[u8]) -> bool
    ensures { result ≡ set_number.allows 0 [] last value.now }
{
    accepts(last, MOST_RISE, long_number(value))
}

pub fn allowed(procedure: Procedure, image: &[u8], entry: u8, last: u32, value: &[u8]) -> bool
    ensures { result ≡ (procedure_is procedure).allows (version_of image.now) (body_of image.now entry) last value.now }
{
    match procedure {
        Procedure::Start => start_allowed(image, entry, value),
        Procedure::Stop => true,
        Procedure::Rekey => rekey_allowed(version_of(image), value),
        Procedure::Expire => true,
        Procedure::SetNumber => rise_allowed(last, value),
        Procedure::SetWindow => window_fits(two_at(value, SPI)),
        Procedure::Status => true,
        Procedure::ReadNumber => true,
        Procedure::Ping => true,
        Procedure::Activation => true,
        Procedure::Deactivation => true,
        Procedure::Inventory => true,
    }
}

// A number that is allowed has no multiple of 2^32 in it.
fn number_asked(last: u32, value: &[u8]) -> u32
    ensures { Renumbered set_number last value.now result }
{
    long_number(value).number
}

pub fn new_number(procedure: Procedure, last: u32, value: &[u8]) -> u32
    ensures { Renumbered (procedure_is procedure) last value.now result }
{
    match procedure {
        Procedure::Start => last,
        Procedure::Stop => last,
        Procedure::Rekey => last,
        Procedure::Expire => last,
        Procedure::SetNumber => number_asked(last, value),
        Procedure::SetWindow => last,
        Procedure::Status => last,
        Procedure::ReadNumber => last,
        Procedure::Ping => last,
        Procedure::Activation => last,
        Procedure::Deactivation => last,
        Procedure::Inventory => last,
    }
}
