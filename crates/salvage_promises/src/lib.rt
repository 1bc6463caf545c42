// What holds of salvage: theorems alone, no code. specs/ has what is promised and proofs/ why it holds.
#![tactic(auto)]
