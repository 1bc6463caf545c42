// Document 01, 'Frames': the secured frame is made. What an association holds (service, mask, key) makes it of a clear one. Nothing here
// knows images, numbers or answers.
#![tactic(auto)]

mod secured;

pub use secured::write_secured;
