// Document 02, request 11: the event log. Its counts go in by value and come back by value, and its events lie in a list that is lent: one event
// more, an empty log, and the replies to a dump and an erase.
#![tactic(auto)]

mod dumping;
mod events;

pub use dumping::{ERASE_REPLY, dump_size, write_dump, write_erase_reply};
pub use events::Log;
