// No code: the words of the project's promises stand in specs/, their readings and the worked examples in proofs/.
#![tactic(auto)]
