// Corrections in another order: two accepted postings on one user and area are the posting of their sum, and accepted postings end in the
// same bytes in whatever order, also as the lines of a list.
// It has no code: the statements are in specs/, their proofs in proofs/.
#![tactic(auto)]
