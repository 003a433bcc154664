// No code: what it means that two tables differ only in their numbering stands in specs/, and that they get the same label in proofs/.
#![tactic(auto)]
