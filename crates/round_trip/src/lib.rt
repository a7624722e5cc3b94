// What the contracts of the faces give together: reading and writing back, by fields and by the image of the C interface; and that calls of
// the C interface are links of a sequence. It has no code.
#![tactic(auto)]
