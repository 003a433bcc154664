// No code: the laws of sums of sets stand in proofs/.
#![tactic(auto)]
