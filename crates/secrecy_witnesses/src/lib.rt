// What shows that the promise on what checks tell is not empty: theorems by computing in proofs/, and no code.
#![tactic(auto)]
