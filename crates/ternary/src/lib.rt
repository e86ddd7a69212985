// Ternary text, Read and Write as definitions, in specs/, and their theorems, in proofs/. In code the test for a whole text is the crate `whole_text`,
// Read the crates `reader` and `read`, Write the crate `writer`.
#![tactic(auto)]
