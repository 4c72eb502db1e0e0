// No code: what is promised of document 02's requests; statements in specs/, theorems in proofs/.
#![tactic(auto)]
