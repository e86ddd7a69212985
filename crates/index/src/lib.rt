// A hashed index of a table's used nodes, in memory that the operation owns: it finds the node with given words without going through the table. An
// entry is 0 if it is empty, else a node's number. The leaf is node 0 of every table in use and needs no entry; so a number fits 16 bits, and an index
// takes half the memory of one that has an entry for it. Nodes are wanted in one place, here.
//
// An index is lent as its entries and its number of slots. A struct with a const parameter for its length would make the engine anew for each length, and
// the recursive `lay` of the crate `term` has no proof with it; `Ready` speaks of the lent table besides, so that it stays a clause.
#![tactic(auto)]

ghost use Rattle.std.specs.Prelude.{◌≡◌, ◌+◌, ◌*◌, ◌≤◌, ◌<◌, length};
ghost use Rattle.table.specs.Nodes.{capacity, has_words, make};
ghost use Rattle.table.specs.Outcome.{whole, settled};
ghost use Rattle.table.specs.Claims.{Unbroken};
ghost use Rattle.index.specs.Index.{home, Ready};
ghost use Rattle.index.specs.Code.{Sought, got_by, ReadyGot};

use table::{Made, Refusal};

// What a search meets first: the node with both words, or an empty entry. An enum, since neither is the failure that a `Result` would make of it.
#[derive(Clone, Copy, Debug, PartialEq, Eq)]
pub enum Found {
    Node(usize),
    Place(usize),
}

// The entry at which the search for the words a and b begins. No product or sum of two words overflows, since the factors' sum is below 2^32.
fn home(a: usize, b: usize, slots: usize) -> usize
    requires { (a < 4294967296) × (b < 4294967296) × (0 < slots) }
    ensures { (result ≡ home a b slots) × (result < slots) }
{
    (a * 2122696415 + b * 735350203) & (slots - 1)
}

// Whether node i has the words a and b.
fn has_words(table: &[u32], i: usize, a: usize, b: usize) -> bool
    requires { i * 2 + 1 < length table.now }
    ensures { result ≡ has_words table.now i a b }
{
    nodes::word(table, i * 2) == a && nodes::word(table, i * 2 + 1) == b
}

// The node with the words a and b, or the empty entry that is its place. The leaf has no entry: it is node 0, once a node is in use. For any other node
// goes over blocks of eight entries, and over the entries of each.
pub fn search(table: &[u32], used: usize, index: &[u16], slots: usize, a: usize, b: usize) -> Found
    requires { Ready table.now used slots index.now × (a < 4294967296) × (b < 4294967296) × (a ≡ 0 → b ≡ 0) }
    ensures { Sought table.now used slots index.now a b result }
{
    if a == 0 {
        if used == 0 {
            return Found::Place(0);
        }
        return Found::Node(0);
    }
    let mut from = home(a, b, slots);
    'blocks: loop {
        for at in from..from + 8 {
            let n = index[at] as usize;
            if n == 0 {
                break 'blocks Found::Place(at);
            }
            if has_words(table, n, a, b) {
                break 'blocks Found::Node(n);
            }
        }
        from += 8;
    }
}

// The node with the words a and b: the used one that has them, else a new one, if it has a place. A new leaf is node 0, and entering it leaves its entry
// empty.
pub fn make(
    table: &mut [u32],
    used: usize,
    index: &mut [u16],
    slots: usize,
    a: usize,
    b: usize,
) -> Option<Made>
    requires { Ready table.old used slots index.old × Unbroken used a b }
    ensures { (got_by result table.new ≡ make (record { words = table.old; used = used }) a b) × ReadyGot result table.new slots index.new }
{
    match search(table, used, index, slots, a, b) {
        Found::Node(n) => Some(Made { node: n, used }),
        Found::Place(p) => {
            if used < table.len() / 2 {
                index[p] = used as u16;
                Some(nodes::new_node(table, used, a, b))
            } else {
                None
            }
        }
    }
}

// What an operation that makes nodes answers, by the last node that it wanted: where that has no place, the words of the nodes made since `used` were in
// use are cleared. The stack is cleared.
pub fn settle(
    table: &mut [u32],
    used: usize,
    stack: &mut [u32],
    got: Option<Made>,
) -> Result<Made, Refusal>
    requires { used ≤ capacity table.old }
    ensures { whole result table.new stack.new ≡ settled used stack.old (got_by got table.old) }
{
    let frames_end = stack.len();
    nodes::clear(stack, 0, frames_end);
    match got {
        Some(made) => Ok(made),
        None => {
            let end = table.len() / 2 * 2;
            nodes::clear(table, used * 2, end);
            Err(Refusal::Nodes)
        }
    }
}
