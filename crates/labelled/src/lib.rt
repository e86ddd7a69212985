// Label and `unlabel` as definitions, in specs/, and their theorems, in proofs/. Their code is in the crates `label`, `label_node` and `unlabel`.
#![tactic(auto)]

// What `unlabel` gives: the nodes of the rule and of the label.
#[derive(Clone, Copy, Debug, PartialEq, Eq)]
pub struct Parts {
    pub rule: usize,
    pub label: usize,
}
