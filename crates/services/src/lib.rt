// Document 01, 'Frames': the two services. What an association holds (service and key) makes of clear data the data as it goes out and its
// MAC, and reads what came in. Nothing here knows frames, images, numbers or answers.
#![tactic(auto)]

mod services;

pub use services::{mac_is_right, protect, release};
