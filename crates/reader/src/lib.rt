// Ternary text read into a table: whether Read takes a text, its nodes wanted digit by digit, and Read on a table that passed 1 and 2; Read is the crate
// `read`. The definitions and the laws that callers cite are in the crate `ternary`, the test for a whole text in `whole_text`, nodes are wanted in
// `index`; specs/ says what the code's own values mean in their terms.
#![tactic(auto)]

ghost use Rattle.std.specs.Prelude.{◌≡◌, [], ◌-◌};
ghost use Rattle.table.specs.Outcome.{whole};
ghost use Rattle.ternary.specs.Laying.{awaits, keep, lay_digit, lay_digits};
ghost use Rattle.ternary.specs.Read.{readable, is_some, read_tree};
ghost use Rattle.index.specs.Index.{Ready};
ghost use Rattle.index.specs.Code.{got_by, ReadyGot, ReadyMade};
ghost use Rattle.reader.specs.Code.{nodes_in, PendingSays, TakesDigit, LaysText};

use table::{Made, Refusal};

// The most trees pending of a text that Read takes, at most 65,535 bytes and one whole tree.
fn most_pending(text: &[u8]) -> Option<usize>
    ensures { PendingSays text.now result }
{
    let n = text.len();
    if n <= 65535 {
        whole_text::scan(text)
    } else {
        None
    }
}

// Whether a text is one that Read takes.
pub fn is_text(text: &[u8]) -> bool
    ensures { result ≡ is_some (readable text.now) }
{
    most_pending(text).is_some()
}

// The node of the digit c, whose branches are the last of the nodes pending, each in a frame.
fn lay_digit(
    table: &mut [u32],
    used: usize,
    stack: &[u32],
    held: usize,
    c: u8,
    index: &mut [u16],
    slots: usize,
) -> Option<Made>
    requires { Ready table.old used slots index.old × TakesDigit used stack.now held c }
    ensures { (keep (nodes_in stack.now (held - (c - 48))) (got_by result table.new)
        ≡ lay_digit c (awaits (record { words = table.old; used = used }) (nodes_in stack.now held))) × ReadyGot result table.new slots index.new }
{
    match c {
        b'0' => index::make(table, used, index, slots, 0, 0),
        b'1' => {
            let p = nodes::word(stack, (held - 1) * 3) + 1;
            index::make(table, used, index, slots, p, 0)
        }
        _ => {
            let p = nodes::word(stack, (held - 1) * 3) + 1;
            let q = nodes::word(stack, (held - 2) * 3) + 1;
            index::make(table, used, index, slots, p, q)
        }
    }
}

// Lays the tree of a whole text, digits last to first, up to one whose node has no place.
fn lay_text(
    table: &mut [u32],
    used: usize,
    stack: &mut [u32],
    text: &[u8],
    index: &mut [u16],
    slots: usize,
) -> Option<Made>
    requires { Ready table.old used slots index.old × LaysText stack.old text.now }
    ensures { (keep [] (got_by result table.new) ≡ lay_digits (record { words = table.old; used = used }) text.now)
        × ReadyGot result table.new slots index.new }
{
    let mut used_now = used;
    let mut held = 0;
    for &c in text.iter().rev() {
        let Some(made) = lay_digit(table, used_now, stack, held, c, index, slots) else {
            return None;
        };
        used_now = made.used;
        held -= (c - b'0') as usize;
        stack[held * 3] = made.node as u32;
        held += 1;
    }
    Some(Made {
        node: nodes::word(stack, 0),
        used: used_now,
    })
}

// Reads a text into a table that passed 1 and 2: 4, then 9, then its nodes with 8.
pub fn read_text(
    table: &mut [u32],
    used: usize,
    stack: &mut [u32],
    text: &[u8],
    index: &mut [u16],
    slots: usize,
) -> Result<Made, Refusal>
    requires { Ready table.old used slots index.old }
    ensures { (whole result table.new stack.new ≡ read_tree table.old used stack.old text.now (readable text.now))
        × ReadyMade result table.new slots index.new }
{
    let most = most_pending(text).ok_or(Refusal::Text)?;
    checks::check_frames(stack, most)?;
    let got = lay_text(table, used, stack, text, index, slots);
    index::settle(table, used, stack, got)
}
