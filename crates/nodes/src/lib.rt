// A lent table's and a lent stack's words in code: the one place that writes nodes and clears words. The definitions and the laws that callers
// cite are in the crate `table`; specs/ says what the code's own values mean in their terms.
#![tactic(auto)]

ghost use Rattle.std.specs.Prelude.{◌≡◌, ◌+◌, ◌*◌, ◌≤◌, ◌<◌, length, get_or};
ghost use Rattle.table.specs.Nodes.{new_node, cleared};
ghost use Rattle.nodes.specs.Code.{placed_by};

use table::Made;

// A lent word as a number, by a cast: std has no `From<u32>` for `usize`.
pub fn word(words: &[u32], i: usize) -> usize
    requires { i < length words.now }
    ensures { (result ≡ get_or words.now i 0) × (result < 4294967296) }
{
    words[i] as usize
}

// The next node, with the branch words a and b.
pub fn new_node(table: &mut [u32], used: usize, a: usize, b: usize) -> Made
    requires { (used * 2 + 1 < length table.old) × (a < 4294967296) × (b < 4294967296) }
    ensures { placed_by result table.new ≡ new_node (record { words = table.old; used = used }) a b }
{
    table[used * 2] = a as u32;
    table[used * 2 + 1] = b as u32;
    Made {
        node: used,
        used: used + 1,
    }
}

// Sets the words from index a up to b to 0.
pub fn clear(words: &mut [u32], a: usize, b: usize)
    requires { (a ≤ b) × (b ≤ length words.old) }
    ensures { words.new ≡ cleared words.old a b }
{
    words[a..b].fill(0);
}
