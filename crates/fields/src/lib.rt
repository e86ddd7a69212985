// The fields of a packet as definitions, in specs/, and their theorems, in proofs/. The reader of packets in code is the crate `packet`.
#![tactic(auto)]
