// Document 01, 'Frames': a secured frame is read, under what an association holds (service, mask, key). Nothing here knows images, numbers
// or answers.
#![tactic(auto)]

mod checked;

pub use checked::{Opening, clear_length, mac_right, number_of, opening_of, release_data};
