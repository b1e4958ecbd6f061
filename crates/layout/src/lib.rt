// Rows in the output's words. There is no code here: the definition is in specs/, what it comes to
// in proofs/.
#![tactic(auto)]
