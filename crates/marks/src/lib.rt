// Document 01, 'Managed numbers': marks and the octet stores that raise them, over a place in a list of octets. Nothing here knows where in
// an image a mark stands. A plan names stores, those of a mark by rule and others one by one; one function makes the first j of any plan,
// and nothing else ever changes an image.
#![tactic(auto)]

mod gray;
mod plans;

pub use gray::{gray_of, mark_of};
pub use plans::{Plan, Store, make, make_all};
