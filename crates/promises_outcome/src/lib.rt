// No code: that each call's contract leaves one outcome, and what a refused exported call leaves; statements in specs/, theorems in proofs/.
#![tactic(auto)]
