// Label on a table that is sound and has its index: a rule's tree with a label tree in it. The definition and its theorems are in the crate `labelled`;
// specs/ says what the code's own parts make in its terms.
#![tactic(auto)]

ghost use Rattle.std.specs.Prelude.{◌≡◌, [], ◌<◌};
ghost use Rattle.table.specs.Outcome.{whole};
ghost use Rattle.index.specs.Index.{Ready};
ghost use Rattle.index.specs.Code.{got_by, ReadyGot, ReadyMade};
ghost use Rattle.labelled.specs.Label as labelling;
ghost use Rattle.label.specs.Code.{constant_nodes, spread_nodes, rule_nodes, whole_nodes};

use table::{Made, Refusal};

// The nodes of KK after the leaf: its stem, and the fork of both.
fn make_constant(
    table: &mut [u32],
    used: usize,
    leaf: usize,
    index: &mut [u16],
    slots: usize,
) -> Option<Made>
    requires { Ready table.old used slots index.old × (leaf < used) }
    ensures { (got_by result table.new ≡ constant_nodes (record { words = table.old; used = used }) leaf) × ReadyGot result table.new slots index.new }
{
    let stem = index::make(table, used, index, slots, leaf + 1, 0)?;
    index::make(table, stem.used, index, slots, leaf + 1, stem.node + 1)
}

// The nodes of Δ(Δp)y: the stem of p, and its fork with y.
fn make_spread(
    table: &mut [u32],
    used: usize,
    p: usize,
    y: usize,
    index: &mut [u16],
    slots: usize,
) -> Option<Made>
    requires { Ready table.old used slots index.old × (p < used) × (y < used) }
    ensures { (got_by result table.new ≡ spread_nodes (record { words = table.old; used = used }) p y) × ReadyGot result table.new slots index.new }
{
    let stem = index::make(table, used, index, slots, p + 1, 0)?;
    index::make(table, stem.used, index, slots, stem.node + 1, y + 1)
}

// The second branch, Δ(Δf)(KK), after the leaf: KK, then its spread with the rule.
fn make_rule(
    table: &mut [u32],
    used: usize,
    leaf: usize,
    rule: usize,
    index: &mut [u16],
    slots: usize,
) -> Option<Made>
    requires { Ready table.old used slots index.old × (leaf < used) × (rule < used) }
    ensures { (got_by result table.new ≡ rule_nodes (record { words = table.old; used = used }) leaf rule) × ReadyGot result table.new slots index.new }
{
    let third = make_constant(table, used, leaf, index, slots)?;
    make_spread(table, third.used, rule, third.node, index, slots)
}

// The whole, Δ(Δ(Kt))y, after the leaf and the second branch y: Kt, then its spread with y.
fn make_whole(
    table: &mut [u32],
    used: usize,
    leaf: usize,
    label: usize,
    y: usize,
    index: &mut [u16],
    slots: usize,
) -> Option<Made>
    requires { Ready table.old used slots index.old × (leaf < used) × (label < used) × (y < used) }
    ensures { (got_by result table.new ≡ whole_nodes (record { words = table.old; used = used }) leaf label y) × ReadyGot result table.new slots index.new }
{
    let sixth = index::make(table, used, index, slots, leaf + 1, label + 1)?;
    make_spread(table, sixth.used, sixth.node, y, index, slots)
}

// Label's nodes, in their order. The leaf is a branch of KK and of Kt.
fn make_nodes(
    table: &mut [u32],
    used: usize,
    rule: usize,
    label: usize,
    index: &mut [u16],
    slots: usize,
) -> Option<Made>
    requires { Ready table.old used slots index.old × (rule < used) × (label < used) }
    ensures { (got_by result table.new ≡ labelling.nodes (record { words = table.old; used = used }) rule label) × ReadyGot result table.new slots index.new }
{
    let leaf = index::make(table, used, index, slots, 0, 0)?;
    let fifth = make_rule(table, leaf.used, leaf.node, rule, index, slots)?;
    make_whole(
        table, fifth.used, leaf.node, label, fifth.node, index, slots,
    )
}

// Labels a rule's node with the tree of another, both in use: 8 while making nodes, or the labelled tree.
pub fn label_rule(
    table: &mut [u32],
    used: usize,
    rule: usize,
    label: usize,
    index: &mut [u16],
    slots: usize,
) -> Result<Made, Refusal>
    requires { Ready table.old used slots index.old × (rule < used) × (label < used) }
    ensures { (whole result table.new [] ≡ labelling.label_rule table.old used rule label) × ReadyMade result table.new slots index.new }
{
    let got = make_nodes(table, used, rule, label, index, slots);
    index::settle(table, used, &mut [], got)
}
