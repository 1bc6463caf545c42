// What shows that the promise on desks is not empty: two runs that differ for desk 1 and not for desk 2, theorems by computing in proofs/, and no
// code.
#![tactic(auto)]
