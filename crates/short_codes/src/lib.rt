// Short codes ([12]) as definitions, in specs/, and their theorems, in proofs/. The table of values is in the crate `code_values`, the operations are in
// `node_code` and `code_text`, and the program `codes` makes the table anew.
#![tactic(auto)]
