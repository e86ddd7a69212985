// The labelled rule of a packet as a definition, in specs/, and its theorems, in proofs/. Its code is in the crates `label_stages` and `labeller`.
#![tactic(auto)]
