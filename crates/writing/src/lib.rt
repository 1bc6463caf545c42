// Text in an output that the caller lends: an octet, a text or a number in decimal put at a place, one behind the other, and a whole text
// put to the front. What is put at a place needs room there, which the caller shows.
#![tactic(auto)]

mod decimal;
mod output;

pub use decimal::put_decimal;
pub use output::{copy_front, put_octet, put_text, text_in};
