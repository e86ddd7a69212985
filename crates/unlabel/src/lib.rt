// The nodes of rule and label out of a labelled tree. The definition and its theorems are in the crate `labelled`; specs/ says what the code's own values
// mean in its terms. That a node is in use is a clause and no type, since the table is lent.
#![tactic(auto)]

ghost use Rattle.std.specs.Prelude.{◌≡◌, ok_or};
ghost use Rattle.table.specs.Nodes.{tree_at};
ghost use Rattle.table.specs.Branches.{InUse};
ghost use Rattle.table.specs.declared.Refusal.TheVariants.{Label};
ghost use Rattle.labelled.specs.Unlabel.{is_kk, is_label_branch, is_rule_branch, label_under, rule_under, unlabel_node, unlabel};
ghost use Rattle.unlabel.specs.Code.{Shaped, where_form};

use labelled::Parts;
use table::Refusal;

// A node by its branches: a leaf, the stem of a node, or the fork of two.
#[derive(Clone, Copy)]
enum Shape {
    Leaf,
    Stem(usize),
    Fork(usize, usize),
}

// The shape of a node in use.
fn shape_at(table: &[u32], node: usize) -> Shape
    requires { InUse table.now node }
    ensures { Shaped table.now node result }
{
    let a = nodes::word(table, node * 2);
    let b = nodes::word(table, node * 2 + 1);
    match (a, b) {
        (0, _) => Shape::Leaf,
        (_, 0) => Shape::Stem(a - 1),
        _ => Shape::Fork(a - 1, b - 1),
    }
}

// Whether the tree of a node in use is KK: the fork of a leaf and of a leaf's stem.
fn is_constant(table: &[u32], node: usize) -> bool
    requires { InUse table.now node }
    ensures { result ≡ is_kk (tree_at table.now node) }
{
    let Shape::Fork(p, q) = shape_at(table, node) else {
        return false;
    };
    let Shape::Leaf = shape_at(table, p) else {
        return false;
    };
    let Shape::Stem(x) = shape_at(table, q) else {
        return false;
    };
    matches!(shape_at(table, x), Shape::Leaf)
}

// The node of t where the tree of a node in use is Δ(Kt).
fn label_under(table: &[u32], node: usize) -> Option<usize>
    requires { InUse table.now node }
    ensures { result ≡ where_form (is_label_branch (tree_at table.now node)) (label_under table.now node) }
{
    let Shape::Stem(constant) = shape_at(table, node) else {
        return None;
    };
    let Shape::Fork(p, label) = shape_at(table, constant) else {
        return None;
    };
    let Shape::Leaf = shape_at(table, p) else {
        return None;
    };
    Some(label)
}

// The node of f where the tree of a node in use is Δ(Δf)(KK).
fn rule_under(table: &[u32], node: usize) -> Option<usize>
    requires { InUse table.now node }
    ensures { result ≡ where_form (is_rule_branch (tree_at table.now node)) (rule_under table.now node) }
{
    let Shape::Fork(p, q) = shape_at(table, node) else {
        return None;
    };
    let Shape::Stem(rule) = shape_at(table, p) else {
        return None;
    };
    is_constant(table, q).then_some(rule)
}

// The nodes of rule and label out of the tree of a node in use, where it is of the labelled form. The tree is known by its form alone, wherever its nodes lie.
fn unlabel_node(table: &[u32], node: usize) -> Option<Parts>
    requires { InUse table.now node }
    ensures { ok_or result Label ≡ unlabel_node table.now node }
{
    let Shape::Fork(p, q) = shape_at(table, node) else {
        return None;
    };
    let label = label_under(table, p)?;
    let rule = rule_under(table, q)?;
    Some(Parts { rule, label })
}

// The nodes of rule and label out of the labelled tree of a node. The table is only read.
pub fn unlabel(table: &[u32], used: usize, node: usize) -> Result<Parts, Refusal>
    ensures { result ≡ unlabel table.now used node }
{
    entry_check::check(true, table, used, &[])?;
    if used <= node {
        return Err(Refusal::Node);
    }
    unlabel_node(table, node).ok_or(Refusal::Label)
}
