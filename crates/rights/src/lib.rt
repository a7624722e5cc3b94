// Who may see and do what: requests, queries and reading by an acting party, with question 26.
// It has no code: the definitions are in specs/, what follows from them (the operator's requests are those without a party, a shipper's
// acts are refused, and its answers depend on what it may see alone) in proofs/.
#![tactic(auto)]
