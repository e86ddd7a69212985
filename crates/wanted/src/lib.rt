// Which of the five rules applying a node takes. The definition is in the crate `applying`.
#![tactic(auto)]

ghost use Rattle.std.specs.Prelude.{◌≡◌, ◌+◌, ◌-◌, ◌*◌, ◌<◌, length};
ghost use Rattle.table.specs.Nodes.{first};
ghost use Rattle.applying.specs.Machine.{fork_rule, rule};

use applying::Rule;

// The rule for a fork with the branches x and y.
#[tactic(auto, unfolding(applying::specs::Machine::fork_rule))]
fn fork_rule(table: &[u32], x: usize, y: usize) -> Rule
    requires { x * 2 + 1 < length table.now }
    ensures { result ≡ fork_rule table.now x y }
{
    match (nodes::word(table, x * 2), nodes::word(table, x * 2 + 1)) {
        (0, _) => Rule::Drop(y),
        (a, 0) => Rule::Spread(a - 1, y),
        (a, b) => Rule::Triage(a - 1, b - 1),
    }
}

// The rule that applying a node takes.
#[tactic(auto, unfolding(applying::specs::Machine::rule))]
pub fn wanted(table: &[u32], function: usize) -> Rule
    requires { (function * 2 + 1 < length table.now) × ((first table.now function - 1) * 2 + 1 < length table.now) }
    ensures { result ≡ rule table.now function }
{
    match (
        nodes::word(table, function * 2),
        nodes::word(table, function * 2 + 1),
    ) {
        (0, _) => Rule::Leaf,
        (a, 0) => Rule::Stem(a - 1),
        (a, b) => fork_rule(table, a - 1, b - 1),
    }
}
