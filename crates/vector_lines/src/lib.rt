// What the programs that run published vectors share: the fields of a line, each in hexadecimal, and how the vectors of a file went.
#![tactic(auto)]

mod fields;
mod files;
mod tally;

pub use fields::{is_empty, is_field, is_whole, key, octets, read_field, spells};
pub use files::run_file;
pub use tally::Tally;
