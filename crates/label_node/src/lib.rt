// Label as an operation on lent memory: the checks, then the crate `label`. It owns the index of the table's nodes (crate `index`), in five sizes, so that
// a table pays for an index about as long as it needs; each size is a call of its own, which is not inlined, as in the crate `entry_check`.
#![tactic(auto)]

ghost use Rattle.std.specs.Prelude.{◌≡◌, true, [], ◌+◌, ◌*◌, ◌/◌, ◌≤◌};
ghost use Rattle.std.proofs.Math.Option.{none};
ghost use Rattle.table.specs.Nodes.{capacity};
ghost use Rattle.table.specs.Outcome.{whole, at_entry};
ghost use Rattle.index.specs.Index.{Serves, Ready};
ghost use Rattle.labelled.specs.Label as labelling;

use table::{Made, Refusal};

// Labels the rule at a node with the tree of another node, in a table that passed 1 and 2 and has its index: 3 for either number, then the labelled rule.
fn label_checked(
    table: &mut [u32],
    used: usize,
    rule: usize,
    label: usize,
    index: &mut [u16],
    slots: usize,
) -> Result<Made, Refusal>
    requires { Ready table.old used slots index.old × (at_entry true table.old used [] ≡ none) }
    ensures { whole result table.new [] ≡ labelling.label table.old used rule label }
{
    if used <= rule || used <= label {
        return Err(Refusal::Node);
    }
    label::label_rule(table, used, rule, label, index, slots)
}

// Label with an index of N entries, of which two thirds are slots.
#[inline(never)]
fn label_in<const N: usize>(
    table: &mut [u32],
    used: usize,
    rule: usize,
    label: usize,
) -> Result<Made, Refusal>
    requires { Serves N table.old }
    ensures { whole result table.new [] ≡ labelling.label table.old used rule label }
{
    let mut index = [0u16; N];
    checks::check_in(true, table, used, &[], &mut index, N / 3 * 2)?;
    label_checked(table, used, rule, label, &mut index, N / 3 * 2)
}

// Labels the rule at a node with the tree of another node.
pub fn label(table: &mut [u32], used: usize, rule: usize, label: usize) -> Result<Made, Refusal>
    ensures { whole result table.new [] ≡ labelling.label table.old used rule label }
{
    let n = table.len();
    if 131072 < n {
        return Err(Refusal::Limits);
    }
    if n <= 128 {
        return label_in::<192>(table, used, rule, label);
    }
    if n / 2 < used {
        return Err(Refusal::Limits);
    }
    if n <= 512 {
        return label_in::<768>(table, used, rule, label);
    }
    if n <= 2048 {
        return label_in::<3072>(table, used, rule, label);
    }
    if n <= 16384 {
        return label_in::<24576>(table, used, rule, label);
    }
    label_in::<196608>(table, used, rule, label)
}
