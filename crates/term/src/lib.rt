// A rule's bytes to its tree, on a table that is sound and has its index: Translate after its checks at entry. The definition and the laws that callers
// cite are in the crate `translation`; specs/ says what the functions that lay out the tree ask. Assumes nothing.
//
// The rule's run has one word less than two for each node of the tree unshared, and so has the work space behind it: four of the six words that the
// check for frames asks of the stack for each node.
#![tactic(auto)]

ghost use Rattle.std.specs.Prelude.{◌≡◌, ◌≤◌, length};
ghost use Rattle.std.proofs.Math.Option.{some};
ghost use Rattle.calculus.specs.Tree.{Tree};
ghost use Rattle.calculus.specs.Term.{Term};
ghost use Rattle.calculus.specs.Bytes.{rule};
ghost use Rattle.calculus.specs.Abstraction.{term, rule_tree};
ghost use Rattle.table.specs.Nodes.{lay};
ghost use Rattle.table.specs.Outcome.{whole, laid};
ghost use Rattle.index.specs.Index.{Ready};
ghost use Rattle.index.specs.Code.{got_by, ReadyGot, ReadyMade};
ghost use Rattle.bracket.specs.Words.{words, Holds};
ghost use Rattle.translation.specs.Translate.{translate_rule};
ghost use Rattle.term.specs.Code.{LayAt, PlaceAt};

use table::{Made, Refusal};

// Lays out the tree whose term's words start at `p` of the stack: second branch, first branch, then the node, up to one that has no place.
// A leaf's first word is 0 and a stem's is 2: the definition `words` gives these numbers.
fn lay(
    stack: &[u32],
    p: usize,
    table: &mut [u32],
    used: usize,
    index: &mut [u16],
    slots: usize,
) -> Option<Made>
    requires { LayAt stack.now p × Ready table.old used slots index.old }
    ensures { ((t : Tree) → Holds stack.now p (words (term t))
        → got_by result table.new ≡ lay (record { words = table.old; used = used }) t) × ReadyGot result table.new slots index.new }
{
    let x = stack[p];
    if x == 0 {
        return index::make(table, used, index, slots, 0, 0);
    }
    if x == 2 {
        let only = lay(stack, p + 2, table, used, index, slots)?;
        return index::make(table, only.used, index, slots, only.node + 1, 0);
    }
    let v = p + 1 + (x / 2) as usize;
    let b = lay(stack, v, table, used, index, slots)?;
    let a = lay(stack, p + 3, table, b.used, index, slots)?;
    index::make(table, a.used, index, slots, a.node + 1, b.node + 1)
}

// Lays out the rule's tree, for which there are frames; `nodes` is its size unshared.
fn place(
    table: &mut [u32],
    used: usize,
    stack: &mut [u32],
    bytes: &[u8],
    nodes: usize,
    index: &mut [u16],
    slots: usize,
) -> Result<Made, Refusal>
    requires { Ready table.old used slots index.old × PlaceAt stack.old bytes.now nodes }
    ensures { ((t : Term) → rule bytes.now ≡ some t
        → whole result table.new stack.new ≡ laid table.old used stack.old (rule_tree t)) × ReadyMade result table.new slots index.new }
{
    bracket::build(bytes, 0, stack, 0, 2 * nodes);
    let got = lay(stack, 0, table, used, index, slots);
    index::settle(table, used, stack, got)
}

// Translates a rule: 5, then 9 by the size of its tree unshared, then 8 while making nodes.
pub fn translate_rule(
    table: &mut [u32],
    used: usize,
    stack: &mut [u32],
    bytes: &[u8],
    index: &mut [u16],
    slots: usize,
) -> Result<Made, Refusal>
    requires { Ready table.old used slots index.old × (length stack.old ≤ 65536) }
    ensures { (whole result table.new stack.new
        ≡ translate_rule table.old used stack.old (rule bytes.now)) × ReadyMade result table.new slots index.new }
{
    let nodes = rule_size::rule_size(bytes).ok_or(Refusal::Rule)?;
    match checks::check_frames(stack, 2 * nodes) {
        Ok(()) => place(table, used, stack, bytes, nodes, index, slots),
        Err(e) => Err(e),
    }
}
