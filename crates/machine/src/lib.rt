// Apply on a table that is known to be sound: uses of the five rules up to a limit, and how they end. The definitions and the laws that callers cite are in
// the crate `applying`; one use is in the crate `rules`.
#![tactic(auto)]

ghost use Rattle.std.specs.Prelude.{◌≡◌, ◌+◌, ◌*◌, ◌≤◌, ◌<◌};
ghost use Rattle.calculus.specs.Uses.{steps};
ghost use Rattle.table.specs.Nodes.{Sound, cleared};
ghost use Rattle.table.specs.Outcome.{whole, frames};
ghost use Rattle.applying.specs.Machine.{rule, uses};
ghost use Rattle.applying.specs.Ended.{ended, apply_ended};
ghost use Rattle.applying.specs.States.{Good};
ghost use Rattle.frames.specs.Code.{uses_of, state_of, turn_of};
ghost use Rattle.index.specs.Index.{Ready};
ghost use Rattle.rules.specs.Code.{ReadyTurned};
ghost use Rattle.machine.specs.Code.{ReadyEnded};

use applying::{Applied, Stopped};
use calculus::Uses;
use frames::{End, Machine, Turned};
use table::Refusal;

// At most `budget` uses of the rules; a further application is left where all of them were taken.
fn uses(
    table: &mut [u32],
    stack: &mut [u32],
    begun: Machine,
    budget: usize,
    index: &mut [u16],
    slots: usize,
) -> Turned
    requires { Good (frames stack.old) (state_of begun table.old stack.old) × (steps (uses_of begun) + budget ≤ 1000000) × Ready table.old begun.used slots index.old }
    ensures { (turn_of result table.new stack.new ≡ uses (frames stack.old) budget (state_of begun table.old stack.old)) × ReadyTurned result table.new slots index.new }
{
    let mut state = begun;
    for _ in 0..budget {
        let turned = rules::turn(table, stack, state, index, slots);
        let End::More = turned.end else {
            return turned;
        };
        state = turned.state;
    }
    Turned {
        state,
        end: End::More,
    }
}

// A stop: the rule that is wanted is read, and then the words of the nodes that were made are cleared.
#[tactic(auto, using(rules::proofs::Steps::reach))]
fn undo(table: &mut [u32], used: usize, state: Machine, refusal: Refusal) -> Stopped
    requires { (used ≤ state.used) × Sound (record { words = table.old; used = state.used }) × (state.function < state.used) × (steps (uses_of state) ≤ 1000000) }
    ensures { (result ≡ record { refusal = refusal; steps = steps (uses_of state); rule = rule table.old state.function })
        × (table.new ≡ cleared table.old (used * 2) (state.used * 2)) }
{
    let rule = wanted::wanted(table, state.function);
    nodes::clear(table, used * 2, state.used * 2);
    Stopped {
        refusal,
        steps: counts::sum(state.uses()),
        rule,
    }
}

// The answer where an application ends that had `used` nodes in use at entry. The stack is cleared, and after a refusal the new nodes too.
#[tactic(auto, using(crate::proofs::Settled::settle_done, crate::proofs::Settled::settle_more, crate::proofs::Settled::settle_nodes, crate::proofs::Settled::settle_frames))]
fn settle(
    table: &mut [u32],
    stack: &mut [u32],
    used: usize,
    turned: Turned,
) -> Result<Applied, Stopped>
    requires { (used ≤ turned.state.used) × Sound (record { words = table.old; used = turned.state.used }) × (turned.state.function < turned.state.used)
        × (steps (uses_of turned.state) ≤ 1000000) }
    ensures { whole result table.new stack.new ≡ ended used stack.old (turn_of turned table.old stack.old) }
{
    let len = stack.len();
    nodes::clear(stack, 0, len);
    let state = turned.state;
    match turned.end {
        End::More => Err(undo(table, used, state, Refusal::Steps)),
        End::Done => {
            let uses = state.uses();
            Ok(Applied {
                node: state.function,
                used: state.used,
                steps: counts::sum(uses),
                uses,
            })
        }
        End::Nodes => Err(undo(table, used, state, Refusal::Nodes)),
        End::Frames => Err(undo(table, used, state, Refusal::Frames)),
    }
}

// Applies one node to another, both in use, in a table that is known to be sound and has its index.
pub fn apply_nodes(
    table: &mut [u32],
    used: usize,
    stack: &mut [u32],
    function: usize,
    argument: usize,
    limit: usize,
    index: &mut [u16],
    slots: usize,
) -> Result<Applied, Stopped>
    requires { Ready table.old used slots index.old × (function < used) × (argument < used) × (limit ≤ 1000000) }
    ensures { (whole result table.new stack.new ≡ apply_ended table.old used stack.old function argument limit) × ReadyEnded result table.new slots index.new }
{
    // No uses, written out: the crate of the type has definitions alone.
    let none = Uses {
        leaf: 0,
        stem: 0,
        drop: 0,
        spread: 0,
        triage: 0,
    };
    let begun = Machine::new(used, function, argument, 0, none);
    let turned = uses(table, stack, begun, limit, index, slots);
    settle(table, stack, used, turned)
}
