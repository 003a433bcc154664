// No code: the mathematics of even sets, basis rings and assemblies stands in proofs/.
#![tactic(auto)]
