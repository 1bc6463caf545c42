// Document 01, 'Frames': the secured frame. Its definitions stand here, with what they say of one another, and what the MAC covers before
// the data; crate `sealing` makes the frame, and crate `opening` reads it.
#![tactic(auto)]

mod before;

pub use before::{MOST_BEFORE, cover};
