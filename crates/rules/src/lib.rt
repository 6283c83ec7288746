#![tactic(auto)]

// The rules have no code: what a reader must believe stands in specs/, and what is computed of it in proofs/.
