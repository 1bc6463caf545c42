// What shows that runs send and release, meet the bound on stores, and send on through management commands: theorems by computing in proofs/,
// and no code.
#![tactic(auto)]
