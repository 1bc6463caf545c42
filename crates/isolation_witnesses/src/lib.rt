// What shows that the promises on other projects and on version 2 are not empty: theorems by computing in proofs/, and no code.
#![tactic(auto)]
