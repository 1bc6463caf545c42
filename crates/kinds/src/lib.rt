// Document 01, 'Frames' and 'The image', and document 02, requests 1, 4 and 6: the frame kinds. Everything that differs from kind to kind
// stands here: the header and its rules, the lengths, and the most that an image may ask; and what a check field changes of it. Every
// function answers for every input: what lies past a frame's end reads as 0, and is never written.
#![tactic(auto)]

mod framing;
mod kinds;

pub use framing::Framing;
pub use kinds::{Kind, kind_of};
