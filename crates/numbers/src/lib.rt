// Document 01, 'Managed numbers': the last number of each entry, what a load gives, whether numbers agree with the marks of an image, and the
// octet stores that raise a mark. Every function answers for every image: what lies past its end reads as 0, and is never written.
#![tactic(auto)]

mod numbers;
mod stores;

pub use numbers::{Numbers, Unfit, load, test_standing};
pub use stores::{plan_for, raise};
