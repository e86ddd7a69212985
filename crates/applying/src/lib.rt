// The five rules on a table, one use at a time, and Apply as a definition, in specs/, and their theorems, in proofs/. Its code is in the crates
// `wanted`, `frames`, `rules`, `machine` and `apply`.
#![tactic(auto)]

use calculus::Uses;
use table::Refusal;

// Which of the five rules applying a node takes, with the nodes that the rule names.
#[derive(Clone, Copy)]
pub enum Rule {
    Leaf,
    Stem(usize),
    Drop(usize),
    Spread(usize, usize),
    Triage(usize, usize),
}

// An application that waits for the outcome of another.
#[derive(Clone, Copy)]
pub enum Frame {
    // spread, while y is applied to N: p and N
    SpreadFirst(usize, usize),
    // spread, while p is applied to N: v
    SpreadSecond(usize),
    // triage, while N is applied to p: q
    TriageFirst(usize),
}

// What Apply gives: the outcome's node, the new count of used nodes, the steps, and the uses of each rule.
#[derive(Clone, Copy)]
pub struct Applied {
    pub node: usize,
    pub used: usize,
    pub steps: usize,
    pub uses: Uses,
}

// How an application stops: the refusal, the steps taken before it and the rule that was wanted ([14]).
#[derive(Clone, Copy)]
pub struct Stopped {
    pub refusal: Refusal,
    pub steps: usize,
    pub rule: Rule,
}
