// The checks at entry of an operation that makes no nodes: 1, then 2. The definitions are in the crate `table`.
//
// The check for 2 has an index of its own (crate `index`), in four sizes, so that a table pays for an index about as long as it needs. Each size is a
// call of its own, which is not inlined, so that a short table does not touch the room of a long index.
#![tactic(auto)]

ghost use Rattle.std.specs.Prelude.{◌≡◌, ◌+◌, ◌*◌, ◌/◌, ◌≤◌};
ghost use Rattle.table.specs.Nodes.{capacity};
ghost use Rattle.table.specs.Outcome.{at_entry};
ghost use Rattle.checks.specs.Code.{refusal_of};
ghost use Rattle.index.specs.Index.{Serves};

use table::Refusal;

// The checks with an index of N entries, of which two thirds are slots.
#[inline(never)]
fn check_in<const N: usize>(
    within: bool,
    table: &[u32],
    used: usize,
    stack: &[u32],
) -> Result<(), Refusal>
    requires { Serves N table.now }
    ensures { refusal_of result ≡ at_entry within table.now used stack.now }
{
    let mut index = [0u16; N];
    checks::check_in(within, table, used, stack, &mut index, N / 3 * 2)
}

// The checks at entry of an operation that makes no nodes, with an index of their own.
pub fn check(within: bool, table: &[u32], used: usize, stack: &[u32]) -> Result<(), Refusal>
    ensures { refusal_of result ≡ at_entry within table.now used stack.now }
{
    let n = table.len();
    if 131072 < n {
        return Err(Refusal::Limits);
    }
    if n <= 128 {
        return check_in::<192>(within, table, used, stack);
    }
    if !within {
        return Err(Refusal::Limits);
    }
    if n <= 2048 {
        return check_in::<3072>(within, table, used, stack);
    }
    if 65536 < stack.len() {
        return Err(Refusal::Limits);
    }
    if n <= 16384 {
        return check_in::<24576>(within, table, used, stack);
    }
    check_in::<196608>(within, table, used, stack)
}
