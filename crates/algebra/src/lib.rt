// Mathematics for any prime: definitions and statements in specs/, proofs in proofs/. There is no
// code.
#![tactic(auto)]
