// No code: what follows from the meaning of document 01 stands in proofs/, and the words that its statements need in specs/.
#![tactic(auto)]
