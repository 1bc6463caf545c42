// Document 01, 'Frames', and document 02, request 9: the security header of either service, and the sequence number in it.
#![tactic(auto)]

mod sequence;

pub use sequence::{Sequence, long_number, number_in, security_header, security_length};
