// The levels and the states of all users of a book, as definitions in specs/; what is claimed of them is proved in proofs/.
#![tactic(auto)]
