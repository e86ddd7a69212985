// The digits of a weight out of a node's tree ([9]). The definitions and their theorems are in the crate `weights`; specs/ says what the code's own values
// mean in their terms. Any words can be read; what is read is the tree's of a node that is in use in a sound table, which a caller may check afterwards.
#![tactic(auto)]

ghost use Rattle.std.specs.Prelude.{◌≡◌, ◌≤◌, IfSome, MatchOption};
ghost use Rattle.table.specs.Nodes.{tree_at};
ghost use Rattle.table.specs.Branches.{InUse};
ghost use Rattle.weights.specs.Digits.{digit_of, digits_of_weight};
ghost use Rattle.weight_digits.specs.Code.{digit_by, digits_by, NoItem, FirstItem};

use weights::Digits;

// The first item of a list, and the node of the list after it.
#[derive(Clone, Copy)]
struct Item {
    digit: usize,
    rest: usize,
    ghost decimal: { digit ≤ 9 },
}

// The digit at a node, or none: the Ks before the leaf, which is node 0.
fn digit_at(table: &[u32], node: usize) -> Option<usize>
    ensures decimal { IfSome result (λ d. d ≤ 9) }
    ensures digit { InUse table.now node → digit_by result ≡ digit_of (tree_at table.now node) }
{
    let mut at = node;
    for d in 0..10 {
        if at == 0 {
            return Some(d);
        }
        if table.len() / 2 <= at {
            return None;
        }
        if nodes::word(table, at * 2) != 1 {
            return None;
        }
        let b = nodes::word(table, at * 2 + 1);
        if b == 0 {
            return None;
        }
        at = b - 1;
    }
    None
}

// The first item of the list at a node, and the rest: both branches of a fork.
fn item_at(table: &[u32], node: usize) -> Option<Item>
    ensures { InUse table.now node → MatchOption result (NoItem table.now node) (λ i. FirstItem table.now node i.digit i.rest) }
{
    if table.len() / 2 <= node {
        return None;
    }
    let a = nodes::word(table, node * 2);
    if a == 0 {
        return None;
    }
    let b = nodes::word(table, node * 2 + 1);
    if b == 0 {
        return None;
    }
    let digit = digit_at(table, a - 1)?;
    Some(Item { digit, rest: b - 1 })
}

// The nine digits of the weight at a node, or none.
pub fn read_digits(table: &[u32], node: usize) -> Option<Digits>
    ensures { InUse table.now node → digits_by result ≡ digits_of_weight (tree_at table.now node) }
{
    let mut digits = [0usize; 9];
    let mut at = node;
    for digit in &mut digits {
        let item = item_at(table, at)?;
        *digit = item.digit;
        at = item.rest;
    }
    if at == 0 {
        Some(Digits { digits })
    } else {
        None
    }
}
