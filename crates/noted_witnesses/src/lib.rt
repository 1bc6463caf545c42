// A run with notes and a log that is nearly full, which show that the promises on the notes are not empty: theorems in proofs/, and no code.
#![tactic(auto)]
