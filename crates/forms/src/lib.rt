// No code: the form of the plan text as data that can be scanned is in specs/, and what its scan gives in proofs/.
#![tactic(auto)]
