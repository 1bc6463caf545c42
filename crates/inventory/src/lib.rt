// Document 02, request 9: the reply to an inventory: how many keys of a key part have an ID from a first one to a last one, then ID and state
// of each. A key part is named as in `keys`, and every function answers for every list: what lies past its end reads as 0.
#![tactic(auto)]

ghost use Rattle.std.specs.Prelude.{◌≡◌, ◌++◌, ◌∷◌, ◌+◌, ◌*◌, ◌≤◌, length};
ghost use Rattle.octets.specs.Numbers.{bytes};
ghost use Rattle.octets.specs.Output.{fronted};
ghost use Rattle.writing.specs.Output.{Put};
ghost use Rattle.writing.specs.Text.{end_to_end};
ghost use Rattle.command_form.specs.Form.{reply_tag, reply_to};
ghost use Rattle.inventory.specs.Inventory.{between, passing, told_of, told_between, inventory};

use command_form::FRONT;
use keys::{key_id_at, key_state_at};
use writing::put_text;

// The tag of an inventory, and the octets of what its reply tells: how many keys, and of each ID and state.
const TAG: u8 = 0x07;

const TOTAL: usize = 2;

const TOLD: usize = 3;

// Whether the ID of a key is one from the first to the last.
fn is_between(image: &[u8], at: u16, first: u16, last: u16, index: u8) -> bool
    ensures { result ≡ between image.now at first last index }
{
    let id = key_id_at(image, at, index);
    (first <= id) & (id <= last)
}

// How many keys have such an ID.
fn total_between(image: &[u8], at: u16, count: u8, first: u16, last: u16) -> u8
    ensures { result ≡ passing count (between image.now at first last) }
{
    (0..count)
        .filter(|k| is_between(image, at, first, last, *k))
        .count() as u8
}

// The octets of the reply.
pub fn inventory_size(image: &[u8], at: u16, count: u8, first: u16, last: u16) -> usize
    ensures { result ≡ length (reply_to 0x07 (inventory image.now at count first last)) }
{
    FRONT + TOTAL + TOLD * (total_between(image, at, count, first, last) as usize)
}

// What stands before the keys: the reply's tag, its length field, and how many keys there are.
fn opening(total: u8) -> [u8; 5]
    ensures { result ≡ reply_tag 0x07 ∷ (bytes 2 (2 + 3 * total) ++ bytes 2 total) }
{
    let length = (TOTAL + TOLD * (total as usize)) as u16;
    let [high, low] = length.to_be_bytes();
    [128 + TAG, high, low, 0, total]
}

// ID and state of a key.
fn told_of(image: &[u8], at: u16, index: u8) -> [u8; 3]
    ensures { result ≡ told_of image.now at index }
{
    let [high, low] = key_id_at(image, at, index).to_be_bytes();
    [high, low, key_state_at(image, at, index)]
}

// The same put behind what stands there, and nothing of a key whose ID is not between.
fn put_told(
    out: &mut [u8],
    place: usize,
    image: &[u8],
    at: u16,
    first: u16,
    last: u16,
    index: u8,
) -> usize
    requires { place + length (told_between image.now at first last index) ≤ length out.old }
    ensures { Put out.old place (told_between image.now at first last index) out.new result }
{
    if is_between(image, at, first, last, index) {
        return put_text(out, place, &told_of(image, at, index));
    }
    place
}

// All keys, in their order.
fn put_keys(
    out: &mut [u8],
    place: usize,
    image: &[u8],
    at: u16,
    count: u8,
    first: u16,
    last: u16,
) -> usize
    requires { place + length (end_to_end count (told_between image.now at first last)) ≤ length out.old }
    ensures { Put out.old place (end_to_end count (told_between image.now at first last)) out.new result }
{
    let mut behind = place;
    for k in 0..count {
        behind = put_told(out, behind, image, at, first, last, k);
    }
    behind
}

// The reply to the front of the output, whose rest stays. Where there is no room for it, nothing is written.
pub fn write_inventory(image: &[u8], at: u16, count: u8, first: u16, last: u16, output: &mut [u8])
    ensures { output.new ≡ fronted (reply_to 0x07 (inventory image.now at count first last)) output.old }
{
    let total = total_between(image, at, count, first, last);
    if output.len() < FRONT + TOTAL + TOLD * (total as usize) {
        return;
    }
    let behind = put_text(output, 0, &opening(total));
    put_keys(output, behind, image, at, count, first, last);
}
