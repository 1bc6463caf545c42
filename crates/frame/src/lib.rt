// Document 01, 'Frames': when a frame obeys its kind, where its parts lie, and its check field. Nothing here knows images, keys or ciphers.
// Every function answers for every input: what lies past a frame's end reads as 0, and is never written.
#![tactic(auto)]

mod closing;
mod parts;
mod rules;

pub use closing::field_ok;
pub use parts::{
    ClearParts, SecuredParts, clear_parts, exceeds, secured_length, secured_parts, too_short,
};
pub use rules::{framing_obeyed, obeys};
