// The promises on the caller's notes are theorems about the definitions of `noting`: statements in specs/, proofs in proofs/, and no code.
#![tactic(auto)]
