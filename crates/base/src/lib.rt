// Integers, lists and arrays as proofs use them: the parts of a signed amount and sums over lists, arrays whose first elements stand for a
// list. It has no code: the definitions are in specs/, the laws in proofs/.
#![tactic(auto)]
