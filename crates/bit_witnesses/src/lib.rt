// What shows that the promise on one changed bit is not empty: theorems by computing in proofs/, and no code.
#![tactic(auto)]
