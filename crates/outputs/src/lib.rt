// What a call that writes to a lent output gives: its number, and the output afterwards. Definitions and what follows from them, no code.
#![tactic(auto)]
