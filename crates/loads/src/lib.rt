// A load, the digits that are drawn from a seed, as definitions, in specs/, and their theorems, in proofs/. The code is in the crate `generator`.
#![tactic(auto)]
