// What the witnesses share: frames, tests that compute, and two ends that meet the conditions of the round trip. Theorems and their
// words in proofs/, and no code. The witnesses stand apart from the promises, so that a wrong promise that is tried does not compute them
// again, and apart from each other, so that none takes long.
#![tactic(auto)]
