// What the machine, Apply and Run do on paper, in specs/, and its theorems, in proofs/: each use of drop, spread and triage is one equation, of leaf and stem
// none, and the tree that Apply or Run gives is the only one in which a way on paper can end. A theory crate: it has no code.
#![tactic(auto)]
