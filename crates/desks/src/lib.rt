// The promise on desks is a theorem about the definitions of `link` and `commands`: its statement in specs/, its proof in proofs/, and no code.
#![tactic(auto)]
