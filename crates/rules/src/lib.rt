// One use of the five rules on a table. The definitions and the laws that callers cite are in the crate `applying`; the state and the frames are
// those of the crate `frames`, and which rule is wanted is told by the crate `wanted`.
#![tactic(auto)]

ghost use Rattle.std.specs.Prelude.{◌≡◌, ◌*◌, ◌≤◌, ◌<◌, length};
ghost use Rattle.calculus.specs.Uses.{steps};
ghost use Rattle.table.specs.Outcome.{frames};
ghost use Rattle.table.specs.Claims.{Unbroken};
ghost use Rattle.index.specs.Index.{Ready};
ghost use Rattle.applying.specs.Machine.{grow, turn};
ghost use Rattle.applying.specs.States.{Good};
ghost use Rattle.frames.specs.Code.{uses_of, state_of, turn_of};
ghost use Rattle.rules.specs.Code.{ReadyTurned};

use applying::{Frame, Rule};
use calculus::Uses;
use frames::{End, Machine, Turned};
use table::Made;

// The outcome is the node with the words a and b, if it is there or has a place. The uses are those with this one.
fn grow(
    table: &mut [u32],
    stack: &mut [u32],
    state: Machine,
    uses: Uses,
    a: usize,
    b: usize,
    index: &mut [u16],
    slots: usize,
) -> Turned
    requires { Ready table.old state.used slots index.old × (state.held * 3 ≤ length stack.old) × Unbroken state.used a b }
    ensures { (turn_of result table.new stack.new ≡ grow (state_of state table.old stack.old) uses a b) × ReadyTurned result table.new slots index.new }
{
    let Some(Made { node, used }) = index::make(table, state.used, index, slots, a, b) else {
        return Turned {
            state,
            end: End::Nodes,
        };
    };
    frames::resume(stack, used, state.held, uses, node)
}

// One use of a rule.
pub fn turn(
    table: &mut [u32],
    stack: &mut [u32],
    state: Machine,
    index: &mut [u16],
    slots: usize,
) -> Turned
    requires { Good (frames stack.old) (state_of state table.old stack.old) × (steps (uses_of state) < 1000000) × Ready table.old state.used slots index.old }
    ensures { (turn_of result table.new stack.new ≡ turn (frames stack.old) (state_of state table.old stack.old)) × ReadyTurned result table.new slots index.new }
{
    let n = state.argument;
    let mut uses = state.uses();
    match wanted::wanted(table, state.function) {
        Rule::Leaf => {
            uses.leaf += 1;
            grow(table, stack, state, uses, n + 1, 0, index, slots)
        }
        Rule::Stem(p) => {
            uses.stem += 1;
            grow(table, stack, state, uses, p + 1, n + 1, index, slots)
        }
        Rule::Drop(y) => {
            uses.drop += 1;
            frames::resume(stack, state.used, state.held, uses, y)
        }
        Rule::Spread(p, y) => {
            uses.spread += 1;
            frames::hold(stack, state, uses, Frame::SpreadFirst(p, n), y, n)
        }
        Rule::Triage(p, q) => {
            uses.triage += 1;
            frames::hold(stack, state, uses, Frame::TriageFirst(q), n, p)
        }
    }
}
