// No code: what is promised of the definitions that the contracts cite; statements in specs/, theorems in proofs/.
#![tactic(auto)]
