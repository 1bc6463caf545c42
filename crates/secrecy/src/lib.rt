// What checks tell of keys, data and MACs is a theorem about the definitions of `noting` and of `link`: the statement in specs/, proofs in proofs/, and no code.
#![tactic(auto)]
