// The theorem over any finite sequence of requests that are all given one store, or none: what holds after postings, lists of them,
// guarantee calls, reductions and runs, refused ones included. It has no code: the statement is in specs/, its proof in proofs/.
#![tactic(auto)]
