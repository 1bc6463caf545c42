// Document 01, 'What comes back': a frame is judged under the entry that it matches. Nothing is changed, and nothing decrypted.
#![tactic(auto)]

mod receiving;
mod sending;
mod window;

pub use receiving::judge_receiving;
pub use sending::judge_sending;
pub use window::accepts;
