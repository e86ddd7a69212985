// Apply: the checks at entry, then the application (crate `machine`). The definitions are in the crate `applying`.
//
// The operation has an index of its own (crate `index`), in four sizes, so that a table pays for an index about as long as it needs. Each size is a call
// of its own, which is not inlined, so that a short table does not touch the room of a long index.
#![tactic(auto)]

ghost use Rattle.std.specs.Prelude.{◌≡◌, ◌+◌, ◌*◌, ◌/◌, ◌≤◌, leb};
ghost use Rattle.std.proofs.Math.Option.{none};
ghost use Rattle.table.specs.Nodes.{capacity};
ghost use Rattle.table.specs.Outcome.{whole, at_entry};
ghost use Rattle.index.specs.Index.{Serves, Ready};
ghost use Rattle.applying.specs.Apply.{apply};

use applying::Applied;
use table::Refusal;

// Applies one node to another in a table that passed 1 and 2 and has its index: 3 for either number, then the application. The answer does not tell where
// an application stopped.
fn apply_checked(
    table: &mut [u32],
    used: usize,
    stack: &mut [u32],
    function: usize,
    argument: usize,
    limit: usize,
    index: &mut [u16],
    slots: usize,
) -> Result<Applied, Refusal>
    requires { Ready table.old used slots index.old × (at_entry (leb limit 1000000) table.old used stack.old ≡ none) }
    ensures { whole result table.new stack.new ≡ apply table.old used stack.old function argument limit }
{
    if used <= function || used <= argument {
        return Err(Refusal::Node);
    }
    let ended = machine::apply_nodes(table, used, stack, function, argument, limit, index, slots);
    ended.map_err(|stopped| stopped.refusal)
}

// Apply with an index of N entries, of which two thirds are slots.
#[inline(never)]
fn apply_in<const N: usize>(
    table: &mut [u32],
    used: usize,
    stack: &mut [u32],
    function: usize,
    argument: usize,
    limit: usize,
) -> Result<Applied, Refusal>
    requires { Serves N table.old }
    ensures { whole result table.new stack.new ≡ apply table.old used stack.old function argument limit }
{
    let mut index = [0u16; N];
    let slots = N / 3 * 2;
    checks::check_in(limit <= 1000000, table, used, stack, &mut index, slots)?;
    apply_checked(
        table, used, stack, function, argument, limit, &mut index, slots,
    )
}

// Applies one node to another.
#[tactic(auto, using(crate::proofs::Entered::long_table, crate::proofs::Entered::over_limit, crate::proofs::Entered::long_frames))]
pub fn apply(
    table: &mut [u32],
    used: usize,
    stack: &mut [u32],
    function: usize,
    argument: usize,
    limit: usize,
) -> Result<Applied, Refusal>
    ensures { whole result table.new stack.new ≡ apply table.old used stack.old function argument limit }
{
    let n = table.len();
    if 131072 < n {
        return Err(Refusal::Limits);
    }
    if n <= 128 {
        return apply_in::<192>(table, used, stack, function, argument, limit);
    }
    if 1000000 < limit {
        return Err(Refusal::Limits);
    }
    if n <= 2048 {
        return apply_in::<3072>(table, used, stack, function, argument, limit);
    }
    if 65536 < stack.len() {
        return Err(Refusal::Limits);
    }
    if n <= 16384 {
        return apply_in::<24576>(table, used, stack, function, argument, limit);
    }
    apply_in::<196608>(table, used, stack, function, argument, limit)
}
