// The demands, and what else is proved over the whole house: specs/ has the words, proofs/Demands.antt the theorems. There is no function here,
// and nothing stands on this crate.
#![tactic(auto)]
