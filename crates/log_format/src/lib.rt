// The log of reductions in bytes. It has no code: the definitions are in specs/, what follows from them (read and written, an entry more or
// less, question 19 by parts, a book with cuts given back) in proofs/.
#![tactic(auto)]
