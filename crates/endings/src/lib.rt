// How a stage of a packet's reader ends: a refusal, which clears what was made since the entry, or the outcome's text. The definitions and their
// theorems are in the crate `running`; specs/ says what the stages ask of lent memory, and the laws that callers cite are in proofs/.
#![tactic(auto)]

ghost use Rattle.std.specs.Prelude.{◌≡◌, List, ℕ, ◌*◌, ◌≤◌, ◌<◌, length};
ghost use Rattle.calculus.specs.Uses.{steps};
ghost use Rattle.table.specs.Outcome.{whole_out};
ghost use Rattle.running.specs.Run.{stopped, writes};
ghost use Rattle.endings.specs.Ready.{Ready};

use calculus::Uses;
use running::Ran;
use table::Refusal;

// A stage was refused with `used` nodes in use before it: every node made since the entry is cleared, and the stack.
pub fn stop(
    table: &mut [u32],
    used: usize,
    stack: &mut [u32],
    refusal: Refusal,
) -> Result<Ran, Refusal>
    requires { used * 2 ≤ length table.old }
    ensures { (o : List ℕ) → whole_out result table.new stack.new o ≡ stopped refusal table.old used stack.old o }
{
    nodes::clear(table, 0, used * 2);
    stack.fill(0);
    Err(refusal)
}

// Writes the outcome, a node that came of these uses.
pub fn write_outcome(
    table: &mut [u32],
    used: usize,
    stack: &mut [u32],
    out: &mut [u8],
    node: usize,
    uses: Uses,
) -> Result<Ran, Refusal>
    requires { Ready table.old used stack.old out.old × (node < used) × (steps uses ≤ 1000000) }
    ensures { whole_out result table.new stack.new out.new
        ≡ writes table.old used stack.old out.old node uses }
{
    match writer::write_node(table, used, stack, node, out) {
        Ok(digits) => Ok(Ran {
            steps: counts::sum(uses),
            used: used,
            digits: digits,
            uses: uses,
        }),
        Err(e) => stop(table, used, stack, e),
    }
}
