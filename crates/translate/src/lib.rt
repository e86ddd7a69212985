// Translate as a public operation: 1 and 2 by the checks at entry, which fill an index of the table's nodes, then the crate `term`. The definition and the
// laws that callers cite are in the crate `translation`. Assumes nothing.
//
// The index is an array of its own, in four lengths, so that a table pays for an index about as long as it needs. Each length is a call of its own,
// which is not inlined, so that a short table does not touch the room of a long index.
#![tactic(auto)]

ghost use Rattle.std.specs.Prelude.{◌≡◌, ◌≤◌, ◌*◌, ◌/◌, length};
ghost use Rattle.table.specs.Outcome.{whole};
ghost use Rattle.translation.specs.Translate.{translate};
ghost use Rattle.index.specs.Index.{Serves};

use table::{Made, Refusal};

// In a table of at most N / 3 nodes, by an index of N entries, of which two for each node are slots.
#[inline(never)]
fn translate_in<const N: usize>(
    table: &mut [u32],
    used: usize,
    stack: &mut [u32],
    bytes: &[u8],
) -> Result<Made, Refusal>
    requires { Serves N table.old }
    ensures { whole result table.new stack.new
        ≡ translate table.old used stack.old bytes.now }
{
    let mut index = [0u16; N];
    let slots = N / 3 * 2;
    checks::check_in(true, table, used, stack, &mut index, slots)?;
    term::translate_rule(table, used, stack, bytes, &mut index, slots)
}

// Translates a rule: its tree's root and the new count of used nodes, or a refusal.
pub fn translate(
    table: &mut [u32],
    used: usize,
    stack: &mut [u32],
    bytes: &[u8],
) -> Result<Made, Refusal>
    ensures { whole result table.new stack.new
        ≡ translate table.old used stack.old bytes.now }
{
    let n = table.len();
    if 131072 < n {
        return Err(Refusal::Limits);
    }
    if n <= 128 {
        return translate_in::<192>(table, used, stack, bytes);
    }
    if n / 2 < used {
        return Err(Refusal::Limits);
    }
    if n <= 2048 {
        return translate_in::<3072>(table, used, stack, bytes);
    }
    if 65536 < stack.len() {
        return Err(Refusal::Limits);
    }
    if n <= 16384 {
        return translate_in::<24576>(table, used, stack, bytes);
    }
    translate_in::<196608>(table, used, stack, bytes)
}
