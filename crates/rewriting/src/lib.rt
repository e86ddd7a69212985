// Ways on paper by the three equations, left to right, in specs/, and their theorems, in proofs/: two that end, end in the same tree, and each application by
// the five rules is such a way. A theory crate: it has no code.
#![tactic(auto)]
