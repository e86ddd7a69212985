// A node's tree written as ternary text: its digits one after another, the pass that measures, the pass that writes, and Write. The definitions and
// the laws that callers cite are in the crate `ternary`; specs/ says what the code's own values mean in their terms.
#![tactic(auto)]

ghost use Rattle.std.specs.Prelude.{◌≡◌, List, ◌++◌, ◌*◌, ◌≤◌, ◌<◌, length, drop};
ghost use Rattle.calculus.specs.Tree.{Tree};
ghost use Rattle.table.specs.Nodes.{Sound, tree_at};
ghost use Rattle.table.specs.Outcome.{whole_out, frames, zeros};
ghost use Rattle.ternary.specs.Text.{text};
ghost use Rattle.ternary.specs.Write.{digits, write_tree, write};
ghost use Rattle.writer.specs.Code.{leaf_digit, fork_digit, digit_with, Stands, StandsSome, DigitSays, room_of, FitsIn};

use table::Refusal;

// A place in a tree that is written digit by digit: the node that comes next, and the forks whose second branch is not begun, each with that branch's
// node in a frame.
#[derive(Clone, Copy)]
struct Walk {
    at: usize,
    held: usize,
}

// A digit, and the place after it where more digits come.
#[derive(Clone, Copy)]
struct Digit {
    value: u8,
    next: Option<Walk>,
}

// A leaf's digit: what comes next is the second branch of the last fork held.
fn leaf_digit(stack: &[u32], held: usize) -> Digit
    requires { held * 3 ≤ length stack.now }
    ensures { result ≡ leaf_digit stack.now held }
{
    if held == 0 {
        return Digit {
            value: b'0',
            next: None,
        };
    }
    let held = held - 1;
    let at = nodes::word(stack, held * 3);
    Digit {
        value: b'0',
        next: Some(Walk { at, held }),
    }
}

// A fork's digit: a frame is held until its second branch is begun.
fn fork_digit(stack: &mut [u32], held: usize, p: usize, q: usize) -> Result<Digit, Refusal>
    requires { q < 4294967296 }
    ensures { digit_with result stack.new ≡ fork_digit stack.old held p q }
{
    if stack.len() / 3 <= held {
        return Err(Refusal::Frames);
    }
    stack[held * 3] = q as u32;
    Ok(Digit {
        value: b'2',
        next: Some(Walk {
            at: p,
            held: held + 1,
        }),
    })
}

// The digit of the node that comes next, or 9 where its fork has no frame.
fn next_digit(table: &[u32], used: usize, stack: &mut [u32], walk: Walk) -> Result<Digit, Refusal>
    requires { StandsSome table.now used stack.old walk }
    ensures { (x : Tree) (xs : List Tree) → Stands table.now used stack.old walk x xs → DigitSays table.now used stack.old stack.new x xs result }
{
    let Walk { at, held } = walk;
    let a = nodes::word(table, at * 2);
    if a == 0 {
        return Ok(leaf_digit(stack, held));
    }
    let b = nodes::word(table, at * 2 + 1);
    if b == 0 {
        let next = Some(Walk { at: a - 1, held });
        return Ok(Digit { value: b'1', next });
    }
    fork_digit(stack, held, a - 1, b - 1)
}

// Goes through the digits of a node's tree with so many out bytes, and writes none: how many are left after them, or the refusal at the first digit that
// lacks something, 10 before 9.
fn measure(
    table: &[u32],
    used: usize,
    stack: &mut [u32],
    node: usize,
    room: usize,
) -> Result<usize, Refusal>
    requires { Sound (record { words = table.now; used = used }) × (node < used) }
    ensures { room_of result ≡ digits (frames stack.old) 0 (tree_at table.now node) room }
{
    let mut next = Some(Walk { at: node, held: 0 });
    let mut left = room;
    while let Some(walk) = next {
        left = left.checked_sub(1).ok_or(Refusal::Out)?;
        let digit = next_digit(table, used, stack, walk)?;
        next = digit.next;
    }
    Ok(left)
}

// Writes the text of a node's tree, which fits; how many digits it has.
fn put_text(table: &[u32], used: usize, stack: &mut [u32], node: usize, out: &mut [u8]) -> usize
    requires { Sound (record { words = table.now; used = used }) × (node < used)
        × FitsIn (digits (frames stack.old) 0 (tree_at table.now node) (length out.old)) }
    ensures { (result ≡ length (text (tree_at table.now node)))
        × (out.new ≡ text (tree_at table.now node) ++ drop result out.old) }
{
    let mut next = Some(Walk { at: node, held: 0 });
    let mut done = 0;
    while let Some(walk) = next {
        let digit = next_digit(table, used, stack, walk).unwrap();
        out[done] = digit.value;
        done += 1;
        next = digit.next;
    }
    done
}

// Writes the text of a node's tree where it fits: 10 or 9 at the first digit that lacks something. Words stay on the stack.
fn write_digits(
    table: &[u32],
    used: usize,
    stack: &mut [u32],
    node: usize,
    out: &mut [u8],
) -> Result<usize, Refusal>
    requires { Sound (record { words = table.now; used = used }) × (node < used) }
    ensures { whole_out result table.now (zeros stack.old) out.new ≡ write_tree table.now stack.old out.old (tree_at table.now node) }
{
    measure(table, used, stack, node, out.len())?;
    Ok(put_text(table, used, stack, node, out))
}

// Writes the tree of a node in use of a table that passed 1 and 2: 10 or 9 at the first digit that lacks something, else its text.
pub fn write_node(
    table: &[u32],
    used: usize,
    stack: &mut [u32],
    node: usize,
    out: &mut [u8],
) -> Result<usize, Refusal>
    requires { Sound (record { words = table.now; used = used }) × (node < used) }
    ensures { whole_out result table.now stack.new out.new ≡ write_tree table.now stack.old out.old (tree_at table.now node) }
{
    let written = write_digits(table, used, stack, node, out);
    stack.fill(0);
    written
}

// Writes a node's tree as text.
pub fn write(
    table: &[u32],
    used: usize,
    stack: &mut [u32],
    node: usize,
    out: &mut [u8],
) -> Result<usize, Refusal>
    ensures { whole_out result table.now stack.new out.new ≡ write table.now used stack.old node out.old }
{
    let short = out.len() <= 65535;
    entry_check::check(short, table, used, stack)?;
    if used <= node {
        return Err(Refusal::Node);
    }
    write_node(table, used, stack, node, out)
}
