// What is pending as a set of alternatives (02, item 3), and its progression: definitions in specs/, theorems in proofs/.
#![tactic(auto)]
