// Document 02, requests 5 and 9: the command call, beside load, securing and checking. A command is decided, then carried out: its stores, the
// managed number, then the reply. The call is what its definition of specs/Commanding says, for every input.
#![tactic(auto)]

ghost use Rattle.std.specs.Prelude.{◌≡◌, length, set, take};
ghost use Rattle.octets.specs.Output.{fronted};
ghost use Rattle.marks.specs.Stores.{stores_in};
ghost use Rattle.judging.specs.Answers.{reported, granted};
ghost use Rattle.link.specs.Calls.{leaving, left, cut};
ghost use Rattle.procedures.specs.Procedures.{procedure_is};
ghost use Rattle.commands.specs.Commanding.{made_by, command_reply, commanded};
ghost use Rattle.commands.specs.Steps.{reply_under};

use addressing::address_of;
use command_form::FRONT;
use deciding::decide;
use judging::Grant;
use link::{Outcome, carried_out, refused};
use marks::{make, make_all};
use numbers::Numbers;
use procedures::Procedure;
use replies::write_reply;

// The reply goes out behind the stores: `made` is how many of them were made, and has to be all. The image is the one that they left.
fn respond(
    grant: Grant,
    made: u32,
    numbers: Numbers,
    procedure: Procedure,
    image: &[u8],
    last: u32,
    value: &[u8],
    output: &mut [u8],
) -> Outcome
    requires { made ≡ stores_in grant.plan }
    ensures answer_value { (reported result.answer ≡ granted grant.size (stores_in grant.plan)) × (result.numbers.last ≡ set numbers.last grant.entry grant.number) }
    ensures output_after { output.new ≡ fronted ((procedure_is procedure).reply image.now grant.entry last value.now) output.old }
{
    write_reply(procedure, image, grant.entry, last, value, output);
    carried_out(grant, made, numbers)
}

// Under the entry that it names: decided, and then carried out.
fn command_under(
    image: &mut [u8],
    numbers: Numbers,
    procedure: Procedure,
    entry: u8,
    value: &[u8],
    output: &mut [u8],
) -> Outcome
    ensures { leaving result image.new output.new ≡ left (reply_under procedure image.old numbers.last entry value.now (length output.old)) image.old numbers.last output.old }
{
    let last = numbers.of(entry);
    match decide(image, entry, last, procedure, value, output.len()) {
        Err(first) => refused(Err(first), numbers),
        Ok(grant) => {
            let plan = grant.plan;
            let made = make_all(image, plan);
            respond(grant, made, numbers, procedure, image, last, value, output)
        }
    }
}

// The cut under the entry that it names: the first so many of its stores, and nothing else.
fn cut_under(
    image: &mut [u8],
    numbers: Numbers,
    procedure: Procedure,
    entry: u8,
    value: &[u8],
    room: usize,
    stores: u32,
) -> u32
    ensures value { result ≡ length (take stores (made_by (reply_under procedure image.old numbers.last entry value.now room))) }
    ensures image_after { image.new ≡ cut (reply_under procedure image.old numbers.last entry value.now room) image.old stores }
{
    let last = numbers.of(entry);
    match decide(image, entry, last, procedure, value, room) {
        Err(_refusal) => 0,
        Ok(grant) => {
            let plan = grant.plan;
            make(image, plan, stores)
        }
    }
}

// The cut: the first `stores` of the octet stores of a command that has that much room for its reply, and nothing else; how many were made.
pub fn command_cut(
    image: &mut [u8],
    numbers: Numbers,
    desk: u8,
    command: &[u8],
    room: usize,
    stores: u32,
) -> u32
    ensures value { result ≡ length (take stores (made_by (command_reply image.old numbers.last desk command.now room))) }
    ensures image_after { image.new ≡ cut (command_reply image.old numbers.last desk command.now room) image.old stores }
{
    match address_of(image, numbers, desk, command) {
        Err(_) => 0,
        Ok(address) => {
            let procedure = address.procedure;
            let entry = address.entry;
            cut_under(
                image,
                numbers,
                procedure,
                entry,
                &command[FRONT..],
                room,
                stores,
            )
        }
    }
}

// A command from a desk, and its reply to the front of the output.
pub fn command(
    image: &mut [u8],
    numbers: Numbers,
    desk: u8,
    command: &[u8],
    output: &mut [u8],
) -> Outcome
    ensures { leaving result image.new output.new ≡ commanded image.old numbers.last desk command.now output.old }
{
    match address_of(image, numbers, desk, command) {
        Err(refusal) => refused(Err(refusal), numbers),
        Ok(address) => {
            let procedure = address.procedure;
            let entry = address.entry;
            command_under(image, numbers, procedure, entry, &command[FRONT..], output)
        }
    }
}
