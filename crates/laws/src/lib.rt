#![tactic(auto)]

// The laws have no code: what follows from the rules stands in proofs/, one file a theorem.
