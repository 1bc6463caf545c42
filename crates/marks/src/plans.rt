// Document 01, 'Managed numbers', and document 02, requests 5 and 9: octet stores by plan, and the first j of them.
ghost use Rattle.std.specs.Prelude.{◌≡◌, ◌+◌, ◌-◌, ◌<◌, ◌^◌, length, set};
ghost use Rattle.marks.specs.Stores.{flipped_octet, code_octet, store_of, stores_in, store_at, stores_of, first_stores, stored};

use crate::gray::gray_of;

// One octet stored: where, and what.
#[derive(Clone, Copy)]
pub struct Store {
    pub at: usize,
    pub value: u8,
}

// What a call stores, before any of it is stored.
#[derive(Clone, Copy)]
pub enum Plan {
    Nothing,
    // An octet; two or three octets, one behind the other in time.
    One(Store),
    Two(Store, Store),
    Three(Store, Store, Store),
    // The mark at a place is raised from one value to another, one at a time.
    Raise { at: u16, from: u32, to: u32 },
}

// The one function by which an image ever changes: exactly one octet, and none past the end.
fn store_octet(image: &mut [u8], at: usize, value: u8)
    ensures { image.new ≡ set image.old at value }
{
    if at < image.len() {
        image[at] = value;
    }
}

// The octet of the code, from the last, that raising m by one changes: trailing zeros of m + 1 pick the flipped bit and thus the octet.
fn flipped_octet(m: u32) -> u32
    requires { m + 1 < 2 ^ 32 }
    ensures { (result ≡ flipped_octet m) × (result < 4) }
{
    u32::trailing_zeros(m + 1) / 8
}

fn code_octet(code: u32, k: u32) -> u8
    requires { k < 4 }
    ensures { result ≡ code_octet code k }
{
    ((code >> (8 * k)) % 256) as u8
}

// One raise of the mark at a place, from m to m + 1: one octet.
fn raise_at(at: u16, m: u32) -> Store
    requires { m + 1 < 2 ^ 32 }
    ensures { result ≡ store_of at m }
{
    let k = flipped_octet(m);
    Store {
        at: at as usize + 3 - (k as usize),
        value: code_octet(gray_of(m + 1), k),
    }
}

// How many stores a plan has, and store i of them.
fn stores_in(plan: Plan) -> u32
    ensures { result ≡ stores_in plan }
{
    match plan {
        Plan::Nothing => 0,
        Plan::One(_) => 1,
        Plan::Two(_, _) => 2,
        Plan::Three(_, _, _) => 3,
        Plan::Raise { at: _, from, to } => to.saturating_sub(from),
    }
}

fn store_at(plan: Plan, i: u32) -> Store
    requires { i < stores_in plan }
    ensures { result ≡ store_at plan i }
{
    match plan {
        Plan::Nothing => Store { at: 0, value: 0 },
        Plan::One(store) => store,
        Plan::Two(first, second) => if i == 0 { first } else { second },
        Plan::Three(first, second, third) => match i {
            0 => first,
            1 => second,
            _ => third,
        },
        Plan::Raise { at, from, to: _ } => raise_at(at, from + i),
    }
}

// The first j stores of a plan, in order, and nothing else; how many they are.
pub fn make(image: &mut [u8], plan: Plan, j: u32) -> u32
    ensures { (result ≡ length (first_stores plan j)) × (image.new ≡ stored image.old (first_stores plan j)) }
{
    let count = j.min(stores_in(plan));
    for i in 0..count {
        let store = store_at(plan, i);
        store_octet(image, store.at, store.value);
    }
    count
}

// All stores of a plan; how many they are.
pub fn make_all(image: &mut [u8], plan: Plan) -> u32
    ensures { (result ≡ stores_in plan) × (image.new ≡ stored image.old (stores_of plan)) }
{
    make(image, plan, stores_in(plan))
}
