// No code: the mathematics of the walk round a ring stands in proofs/.
#![tactic(auto)]
