// Translate as a definition, in specs/, and its laws, in proofs/. Its code is in the crates `rule_size`, `bracket`, `term` and `translate`.
#![tactic(auto)]
