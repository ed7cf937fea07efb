// No code: laws of the model's words stand in proofs/. Theory and every library cite them.
#![tactic(auto)]
