// The promise on desks with notes is a theorem about the definitions of `noting`: its statement in specs/, its proof in proofs/, and no code.
#![tactic(auto)]
