// What shows that the round trip is not empty: theorems by computing in proofs/, and no code.
#![tactic(auto)]
