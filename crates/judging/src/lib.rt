// Document 01, 'What comes back': how a call is judged. The first test that applies refuses, in the paper's order; where none does, a
// grant says what is stored, handed out and remembered. The tests stand here in the definitions, with what follows from them, and the
// answers and grants in the code; crates `admission` and `verdicts` judge, and crate `link` carries out.
#![tactic(auto)]

mod answers;
mod said;
mod verdict;

pub use answers::{Answer, Done, Refusal, Reported, report_of};
pub use said::{Said, no_desk};
pub use verdict::{Admission, Grant};
