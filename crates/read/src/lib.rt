// Read as a public operation: 1 and 2 by the checks at entry, which fill an index of the table's nodes, then the crate `reader`. The definitions and the
// laws that callers cite are in the crate `ternary`.
//
// The index is an array of its own, in four sizes, so that a table pays for an index about as long as it needs. Each size is a call of its own, which
// is not inlined, so that a short table does not touch the room of a long index.
#![tactic(auto)]

ghost use Rattle.std.specs.Prelude.{◌≡◌, ◌*◌, ◌/◌, ◌≤◌, length};
ghost use Rattle.table.specs.Outcome.{whole};
ghost use Rattle.ternary.specs.Read.{read};
ghost use Rattle.index.specs.Index.{Serves};

use table::{Made, Refusal};

// With an index of N entries, of which two thirds are slots: for a table of at most N / 3 nodes.
#[inline(never)]
fn read_in<const N: usize>(
    table: &mut [u32],
    used: usize,
    stack: &mut [u32],
    text: &[u8],
) -> Result<Made, Refusal>
    requires { Serves N table.old }
    ensures { whole result table.new stack.new ≡ read table.old used stack.old text.now }
{
    let slots = N / 3 * 2;
    let mut index = [0u16; N];
    checks::check_in(true, table, used, stack, &mut index, slots)?;
    reader::read_text(table, used, stack, text, &mut index, slots)
}

// Reads a text into the table.
pub fn read(table: &mut [u32], used: usize, stack: &mut [u32], text: &[u8]) -> Result<Made, Refusal>
    ensures { whole result table.new stack.new ≡ read table.old used stack.old text.now }
{
    let n = table.len();
    if 131072 < n {
        return Err(Refusal::Limits);
    }
    if n <= 128 {
        return read_in::<192>(table, used, stack, text);
    }
    if n / 2 < used {
        return Err(Refusal::Limits);
    }
    if n <= 2048 {
        return read_in::<3072>(table, used, stack, text);
    }
    if 65536 < stack.len() {
        return Err(Refusal::Limits);
    }
    if n <= 16384 {
        return read_in::<24576>(table, used, stack, text);
    }
    read_in::<196608>(table, used, stack, text)
}
