// Document 01, 'What comes back': the tests that come first in securing and in checking, up to the search for the entry. Nothing is changed.
#![tactic(auto)]

mod admission;
mod wanted;

pub use admission::{admit_receiving, admit_sending};
pub use wanted::spi_received;
