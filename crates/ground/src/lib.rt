// No code: what the promises of the libraries come to stands in proofs/, and the promises as its statements read them in specs/.
#![tactic(auto)]
