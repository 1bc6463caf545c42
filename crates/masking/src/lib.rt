// Document 01, 'Frames', and document 02, request 6: the header under the mask, as the MAC covers it. Every function answers for every input:
// what lies past a frame's end reads as 0, and is never written.
#![tactic(auto)]

mod masked;

pub use masked::mask_header;
