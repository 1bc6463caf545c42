// Document 01, 'Managed numbers': associations. The image is a list of octets that the caller lends; an entry is named by its index in the
// contents, counted from 0. Every function answers for every image: what lies past its end reads as 0.
#![tactic(auto)]

mod entry;
mod held;
mod search;

pub use entry::{Entry, entry_at};
pub use held::{Held, held_at};
pub use search::{Wanted, find, find_spi, serves_channel};
