// What deposit stops the cuts, as it follows from the rules: statements in specs/, proofs in proofs/. It has no code.
#![tactic(auto)]
