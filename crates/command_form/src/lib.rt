// Document 02, request 5: the form of a command, its tag, length field and value, and the fields of a value: an SPI, and the channels that a
// start names. Nothing is changed.
#![tactic(auto)]

mod channels;
mod form;

pub use channels::channels_right;
pub use form::{CHANNEL, FRONT, KEY_ID, SPI, measured, spi_named, value_length};
