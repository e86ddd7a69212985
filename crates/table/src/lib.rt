// A lent table's words as nodes, the refusals, and what the operations share, as definitions, in specs/, and their theorems, in proofs/. The code
// over a table is in the crates `nodes`, `index`, `fill`, `checks`, `entry_check`, `same` and `refusals`.
#![tactic(auto)]

// Why an operation was refused. `specs/Refusal.antt` gives the number of each.
#[derive(Clone, Copy, Debug, PartialEq, Eq)]
pub enum Refusal {
    // a length, a count or a limit is too large
    Limits,
    // a used node is broken, or two are equal
    Broken,
    // a node number is not below used
    Node,
    // a text is not one whole tree
    Text,
    // bytes are not a rule
    Rule,
    // a packet is broken
    Packet,
    // the step limit is reached
    Steps,
    // a node that is not there has no place
    Nodes,
    // every frame is held
    Frames,
    // the out bytes are full, or too few
    Out,
    // a tree is not of the labelled form
    Label,
    // a rule text has no reading
    RuleText,
    // a week, a day or a minute is broken
    Week,
    // a tree or a number of grams is no weight, or a sum is above the top
    Weight,
}

// What an operation that makes nodes gives: the node, and the new count of used nodes.
#[derive(Clone, Copy, Debug, PartialEq, Eq)]
pub struct Made {
    pub node: usize,
    pub used: usize,
}
