// Whether two nodes have the same tree. The definition and its theorems are in the crate `table`.
#![tactic(auto)]

ghost use Rattle.std.specs.Prelude.{◌≡◌};
ghost use Rattle.table.specs.Same.{same};

use table::Refusal;

// Whether the nodes a and b have the same tree, which is whether they are one node: 1, 2, then 3 for either. The table is only read.
pub fn same(table: &[u32], used: usize, a: usize, b: usize) -> Result<bool, Refusal>
    ensures { result ≡ same table.now used a b }
{
    let none: [u32; 0] = [];
    entry_check::check(true, table, used, &none)?;
    if used <= a {
        return Err(Refusal::Node);
    }
    if used <= b {
        return Err(Refusal::Node);
    }
    Ok(a == b)
}
