// What a party may see of a book. It has no code: the definitions are in specs/, what follows for what the party is told in proofs/.
#![tactic(auto)]
