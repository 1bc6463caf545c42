// Document 01, 'Frames': what a secured frame holds. The functions that read it ask for a frame that has room for its parts: answer 5 is past.
ghost use Rattle.std.specs.Prelude.{◌≡◌, ◌+◌, ◌*◌, ◌≤◌, length};
ghost use Rattle.kinds.specs.Kinds.{framed};
ghost use Rattle.engines.specs.Lent.{Lent};
ghost use Rattle.octets.specs.Output.{written};
ghost use Rattle.protection.specs.Protection.{number_in, mac_right, clear_data, clear_length};
ghost use Rattle.opening.specs.Steps.{opening_of, Opens};

use association::Held;
use frame::{SecuredParts, secured_parts};
use key_schedule::expand_key;
use kinds::Framing;
use octets::block_at;
use protection::{MOST_BEFORE, cover};
use security_header::{Sequence, number_in, security_length};
use services::{mac_is_right, release};

// What is made once of a secured frame: its framing, what protects it with its key expanded, and where its parts end.
#[derive(Clone, Copy)]
pub struct Opening {
    pub framing: Framing,
    pub held: Held,
    pub expanded: [u8; 240],
    pub parts: SecuredParts,
}

pub fn opening_of(framing: Framing, held: Held, frame: &[u8]) -> Opening
    ensures { result ≡ opening_of framing held frame.now }
{
    let key = held.key;
    let expanded = expand_key(key);
    let parts = secured_parts(framing, security_length(held.service), frame);
    Opening {
        framing,
        held,
        expanded,
        parts,
    }
}

pub fn clear_length(opening: Opening, frame: &[u8]) -> usize
    requires { Opens opening frame.now }
    ensures { result ≡ clear_length opening.held (framed opening.framing) frame.now }
{
    let parts = opening.parts;
    parts.content - parts.security
}

pub fn number_of(opening: Opening, frame: &[u8]) -> Sequence
    requires { Opens opening frame.now }
    ensures { result.above * 4294967296 + result.number ≡ number_in opening.held (framed opening.framing) frame.now }
{
    let service = opening.held.service;
    let header = opening.parts.header;
    let security = opening.parts.security;
    let naming = opening.held.naming;
    number_in(service, naming, &frame[header..security])
}

// The whole MAC is compared, with no early exit.
pub fn mac_right(tables: &[u32], opening: Opening, frame: &[u8]) -> bool
    requires lent { Lent tables.now }
    requires opens { Opens opening frame.now }
    ensures { result ≡ mac_right opening.held (framed opening.framing) frame.now }
{
    let framing = opening.framing;
    let held = opening.held;
    let expanded = opening.expanded;
    let mask = held.mask;
    let header = opening.parts.header;
    let security = opening.parts.security;
    let content = opening.parts.content;
    let mut before: [u8; MOST_BEFORE] = [0; MOST_BEFORE];
    let covered = cover(framing, mask, security - header, frame, &mut before);
    let mac = block_at(frame, content);
    mac_is_right(
        tables,
        held,
        &expanded,
        &frame[header..security],
        &before[..covered],
        &frame[security..content],
        mac,
    )
}

// The clear data to the front of the output.
pub fn release_data(tables: &[u32], opening: Opening, frame: &[u8], output: &mut [u8])
    requires lent { Lent tables.now }
    requires opens { Opens opening frame.now × (clear_length opening.held (framed opening.framing) frame.now ≤ length output.old) }
    ensures { output.new ≡ written (clear_data opening.held (framed opening.framing) frame.now) output.old }
{
    let held = opening.held;
    let expanded = opening.expanded;
    let header = opening.parts.header;
    let security = opening.parts.security;
    let content = opening.parts.content;
    release(
        tables,
        held,
        &expanded,
        &frame[header..security],
        &frame[security..content],
        output,
    );
}
