// The checks in code: 1 and 2 at entry, 9 before a tree is laid out. The definitions and the laws that callers cite are in the crate `table`; specs/ says
// what the code's own values mean in their terms.
// The check for 2 fills an index of the table's nodes (crates `index` and `fill`).
#![tactic(auto)]

ghost use Rattle.std.specs.Prelude.{◌≡◌, ◌&&◌, ◌≤◌, length, IsOk};
ghost use Rattle.table.specs.Outcome.{fits, at_entry};
ghost use Rattle.index.specs.Index.{Empty, Ready};
ghost use Rattle.checks.specs.Code.{refusal_of, checked_with, frames_for};

use table::Refusal;

// Whether 1 is not met. `within` says whether the operation's own limits are kept.
fn fits(within: bool, table: &[u32], used: usize, stack: &[u32]) -> bool
    ensures { result ≡ (within && fits table.now used stack.now) }
{
    if !within {
        return false;
    }
    if 131072 < table.len() {
        return false;
    }
    if 65536 < stack.len() {
        return false;
    }
    used <= table.len() / 2
}

// The checks that every operation begins with: 1, then 2, which fills the index.
pub fn check_in(
    within: bool,
    table: &[u32],
    used: usize,
    stack: &[u32],
    index: &mut [u16],
    slots: usize,
) -> Result<(), Refusal>
    requires { Empty table.now slots index.old }
    ensures { (refusal_of result ≡ at_entry within table.now used stack.now) × (IsOk result → Ready table.now used slots index.new) }
{
    if !fits(within, table, used, stack) {
        return Err(Refusal::Limits);
    }
    if fill::fill(table, used, index, slots) {
        Ok(())
    } else {
        Err(Refusal::Broken)
    }
}

// Frames for a tree that takes so many: 9. A refusal clears the stack.
pub fn check_frames(stack: &mut [u32], held: usize) -> Result<(), Refusal>
    ensures { checked_with result stack.new ≡ frames_for stack.old held }
{
    let len = stack.len();
    if len / 3 < held {
        nodes::clear(stack, 0, len);
        return Err(Refusal::Frames);
    }
    Ok(())
}
