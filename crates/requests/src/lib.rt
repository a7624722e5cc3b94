// A call with its setting: what document 02 adds between the questions of a book and those of a call. It has no code: the definitions are
// in specs/, what follows from them (a request after its opening questions, a request in no setting) in proofs/.
#![tactic(auto)]
