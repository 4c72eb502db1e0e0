// No code: what holds of any two channels whose units are short programs of accesses; definitions in specs/, laws in proofs/.
#![tactic(auto)]
