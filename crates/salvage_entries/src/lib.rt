// Document 02, request 12: which entries of a damaged image are kept, and in what order they come to stand. Every function answers for every
// list of octets: what lies past its end reads as 0. `kept` is a list of entries, by their indices in the contents.
#![tactic(auto)]

mod keeping;
mod ordering;

pub use keeping::keep_entries;
pub use ordering::{is_among, new_index, old_index};
