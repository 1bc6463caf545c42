// Document 02, requests 5 and 10: the tests that come first of a management command, up to the entry that it names. Nothing is changed.
#![tactic(auto)]

mod address;

pub use address::{Address, address_of};
