// Document 02, requests 5 and 9: the reply to a command: tag, length field, value. Four procedures have one. Nothing is changed but the
// output that it is written to.
#![tactic(auto)]

ghost use Rattle.std.specs.Prelude.{◌≡◌, [], ◌∷◌, ◌++◌, ℕ, length};
ghost use Rattle.octets.specs.Numbers.{bytes};
ghost use Rattle.octets.specs.Output.{fronted};
ghost use Rattle.bodies.specs.Body.{state_of};
ghost use Rattle.image.specs.Image.{body_of};
ghost use Rattle.command_form.specs.Form.{spi_length, number_length, reply_to};
ghost use Rattle.procedures.specs.Procedures.{status, read_number, ping, key_inventory, procedure_is};

use bodies::state_of;
use command_form::{KEY_ID, spi_named};
use image::{body_at, key_count, part_at, version_of};
use inventory::{inventory_size, write_inventory};
use octets::{put, two_at};
use procedures::Procedure;

// The octets of each reply that has always as many.
const STATUS: usize = 6;

const NUMBER: usize = 17;

const PING: usize = 3;

// The octets of an inventory's reply.
fn keys_size(image: &[u8], value: &[u8]) -> usize
    ensures { result ≡ length (key_inventory.reply image.now 0 0 value.now) }
{
    inventory_size(
        image,
        part_at(image),
        key_count(image),
        two_at(value, 0),
        two_at(value, KEY_ID),
    )
}

// How many octets the reply has, whatever the entry and its number.
pub fn reply_size(procedure: Procedure, image: &[u8], value: &[u8]) -> usize
    ensures { (e last : ℕ) → result ≡ length ((procedure_is procedure).reply image.now e last value.now) }
{
    match procedure {
        Procedure::Start => 0,
        Procedure::Stop => 0,
        Procedure::Rekey => 0,
        Procedure::Expire => 0,
        Procedure::SetNumber => 0,
        Procedure::SetWindow => 0,
        Procedure::Status => STATUS,
        Procedure::ReadNumber => NUMBER,
        Procedure::Ping => PING,
        Procedure::Activation => 0,
        Procedure::Deactivation => 0,
        Procedure::Inventory => keys_size(image, value),
    }
}

// The state of an entry.
pub fn state_at(image: &[u8], entry: u8) -> u8
    ensures { result ≡ state_of (body_of image.now entry) }
{
    state_of(image, version_of(image), body_at(image, entry))
}

fn status_reply(spi: u16, state: u8) -> [u8; 6]
    ensures { result ≡ reply_to 0x1F (bytes spi_length spi ++ (state ∷ [])) }
{
    let [high, low] = spi.to_be_bytes();
    [0x9F, 0, 3, high, low, state]
}

fn write_status(image: &[u8], entry: u8, value: &[u8], output: &mut [u8])
    ensures { output.new ≡ fronted (status.reply image.now entry 0 value.now) output.old }
{
    put(
        &status_reply(spi_named(value), state_at(image, entry)),
        output,
    );
}

fn number_reply(spi: u16, last: u32) -> [u8; 17]
    ensures { result ≡ reply_to 0x10 (bytes spi_length spi ++ bytes number_length last) }
{
    let mut reply: [u8; NUMBER] = [0; NUMBER];
    reply[0] = 0x90;
    reply[2] = 14;
    reply[3..5].copy_from_slice(&spi.to_be_bytes());
    reply[13..].copy_from_slice(&last.to_be_bytes());
    reply
}

fn write_number(last: u32, value: &[u8], output: &mut [u8])
    ensures { output.new ≡ fronted (read_number.reply [] 0 last value.now) output.old }
{
    put(&number_reply(spi_named(value), last), output);
}

fn write_ping(output: &mut [u8])
    ensures { output.new ≡ fronted (ping.reply [] 0 0 []) output.old }
{
    put(&[0xB1, 0, 0], output);
}

fn write_keys(image: &[u8], value: &[u8], output: &mut [u8])
    ensures { output.new ≡ fronted (key_inventory.reply image.now 0 0 value.now) output.old }
{
    write_inventory(
        image,
        part_at(image),
        key_count(image),
        two_at(value, 0),
        two_at(value, KEY_ID),
        output,
    );
}

// The reply to the front of the output, whose rest stays; where there is no room for it, or no reply, nothing is written.
pub fn write_reply(
    procedure: Procedure,
    image: &[u8],
    entry: u8,
    last: u32,
    value: &[u8],
    output: &mut [u8],
)
    ensures { output.new ≡ fronted ((procedure_is procedure).reply image.now entry last value.now) output.old }
{
    match procedure {
        Procedure::Start => {}
        Procedure::Stop => {}
        Procedure::Rekey => {}
        Procedure::Expire => {}
        Procedure::SetNumber => {}
        Procedure::SetWindow => {}
        Procedure::Status => write_status(image, entry, value, output),
        Procedure::ReadNumber => write_number(last, value, output),
        Procedure::Ping => write_ping(output),
        Procedure::Activation => {}
        Procedure::Deactivation => {}
        Procedure::Inventory => write_keys(image, value, output),
    }
}
