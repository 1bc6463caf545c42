// What shows that every answer is given: theorems by computing in proofs/, and no code.
#![tactic(auto)]
