// What shows that the promise on one changed bit is not empty where the bit says how long the header of a clear frame is: theorems by
// computing in proofs/, and no code.
#![tactic(auto)]
