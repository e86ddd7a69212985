// The check of a table for broken and equal nodes, which enters them into its index. The definitions are in the crate `table`, the index in the crate
// `index`.
#![tactic(auto)]

ghost use Rattle.std.specs.Prelude.{◌≡◌, true, ◌*◌, ◌≤◌, ◌<◌, length};
ghost use Rattle.table.specs.Nodes.{capacity, broken, sound};
ghost use Rattle.index.specs.Index.{Empty, Ready};

use index::Found;

// Whether node i with the branch words a and b is broken. The last test is a = 0 < b, since b is a word.
fn is_broken(i: usize, a: usize, b: usize) -> bool
    requires { (a < 4294967296) × (b < 4294967296) }
    ensures { result ≡ broken i a b }
{
    if i < a {
        return true;
    }
    if i < b {
        return true;
    }
    a * 4294967296 < b
}

// Enters the used nodes into an empty index, in which node 0 leaves its entry empty. Whether none of them is broken and no two are equal.
pub fn fill(table: &[u32], used: usize, index: &mut [u16], slots: usize) -> bool
    requires { Empty table.now slots index.old × (length table.now ≤ 131072) × (used ≤ capacity table.now) }
    ensures { (result ≡ sound table.now used) × (result ≡ true → Ready table.now used slots index.new) }
{
    for i in 0..used {
        let a = nodes::word(table, i * 2);
        let b = nodes::word(table, i * 2 + 1);
        if is_broken(i, a, b) {
            return false;
        }
        let Found::Place(p) = index::search(table, i, index, slots, a, b) else {
            return false;
        };
        index[p] = i as u16;
    }
    true
}
