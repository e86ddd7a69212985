// Run as a definition, in specs/, and its theorems, in proofs/. Its code is in the crates `packet_checks`,
// `endings`, `stages`, `teller` and `run`. Run told with where it stopped is in specs/Tell.antt; what `stopped` gives of it is in the crate `stopping`.
#![tactic(auto)]

use applying::Rule;
use calculus::Uses;
use table::Refusal;

// What Run and `label_packet` give: the steps, the count of used nodes, how many digits were written, and the uses of each rule.
#[derive(Clone, Copy)]
pub struct Ran {
    pub steps: usize,
    pub used: usize,
    pub digits: usize,
    pub uses: Uses,
}

// Where applying stopped: the argument's place from 1, the steps of the whole run, and the rule that was wanted.
#[derive(Clone, Copy)]
pub struct Stop {
    pub place: usize,
    pub steps: usize,
    pub rule: Rule,
}

// Run's answer, and where applying stopped, if it did.
#[derive(Clone, Copy)]
pub struct Told {
    pub ran: Result<Ran, Refusal>,
    pub stop: Option<Stop>,
}
