// Lines of text for the programs that run cases: a line is read, its fields are found, the octets or the number that a field spells are
// read, and octets are written. No contract can say what a program reads, so `input` is short; what is right of a text stands in the other modules.
#![tactic(auto)]

mod decimal;
mod fields;
mod hexadecimal;
mod input;

pub use decimal::read_number;
pub use fields::{field, front};
pub use hexadecimal::{Hexadecimal, read_octets};
pub use input::{each_line, read_line};
