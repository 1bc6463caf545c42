// An entry of GCM's published vectors, a line `KEY IV PLAINTEXT ADDITIONAL CIPHERTEXT TAG`, and whether both engines seal and open it as
// published. Where `is_sealed` or `is_opened` answers true, GCM's definitions make of the line's fields what the line says (specs/Entry); when
// they answer false, their contracts leave free.
#![tactic(auto)]

mod entries;
mod openings;
mod seals;

pub use entries::{ADDITIONAL, CIPHERTEXT, TAG, is_entry, iv};
pub use openings::is_opened;
pub use seals::is_sealed;
