// The promises of the module are theorems about the definitions of `link`: statements in specs/, proofs in proofs/, and no code.
#![tactic(auto)]
