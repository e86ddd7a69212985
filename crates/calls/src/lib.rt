// Lists of Read, Translate and Apply calls on one table and what demand 3 claims of them, in specs/, and the proof of it, in proofs/. A theory crate: it
// has no code.
#![tactic(auto)]
