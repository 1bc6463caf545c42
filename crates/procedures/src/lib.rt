// Document 02, requests 5 and 9: the procedures that a command may call, each with its tag, the length of its value and the states in which
// it may come. Nothing is changed. Crate `conditions` has what it asks of its value, `key_conditions` what of the key that it names, `plans`
// what it stores, and `replies` what it replies.
#![tactic(auto)]

mod procedure;
mod tags;

pub use procedure::Procedure;
pub use tags::{called_by, key_command};
