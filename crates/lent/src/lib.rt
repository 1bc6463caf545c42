// What C lends and what it gets back: the 32 numbers, in a list that the caller lends, and what a call reports, in one number.
#![tactic(auto)]

mod lent;
mod packing;

pub use lent::{count_answer, numbers_in, returned};
use notes::Notes;
pub use packing::word;

// The number that a call with notes returns, and the notes as it leaves them.
#[derive(Clone, Copy)]
pub struct NotedWord {
    pub word: u64,
    pub notes: Notes,
}
