// The code of a node's tree ([12]): the digits of its text taken until they are too many, and the operation. The definitions and their theorems are in the
// crate `short_codes`, the table of values is in `code_values`; specs/ says what the code's own values mean in their terms.
#![tactic(auto)]

ghost use Rattle.std.specs.Prelude.{◌≡◌, ◌+◌, ◌*◌, ◌≤◌, ◌<◌};
ghost use Rattle.table.specs.Nodes.{tree_at};
ghost use Rattle.table.specs.Branches.{InUse};
ghost use Rattle.short_codes.specs.Values.{padded};
ghost use Rattle.short_codes.specs.ShortCodes.{code};
ghost use Rattle.node_code.specs.Code.{digits, taken_text};

use table::Refusal;

// How many digits the text of a tree that has a code has at most.
const MOST_DIGITS: usize = 10;

// Digits of a text: how many they are, and their value.
#[derive(Clone, Copy)]
struct Digits {
    many: usize,
    value: usize,
}

impl Digits {
    // These digits and one more.
    fn and(self, digit: usize) -> Digits
        requires { (self.many < 10) × (self.value < padded self.many 1) × (digit ≤ 2) }
        ensures { result ≡ digits (self.many + 1) (self.value * 3 + digit) }
    {
        Digits {
            many: self.many + 1,
            value: self.value * 3 + digit,
        }
    }
}

// Takes the digits of a node's tree after others, or none where they are more than ten in all. A text may be exponentially long, so it stops after ten
// digits; no more than eleven calls are open at a time.
fn take_text(table: &[u32], node: usize, before: Digits) -> Option<Digits>
    requires { InUse table.now node × (before.many ≤ 10) × (before.value < padded before.many 1) }
    ensures { result ≡ taken_text before.many before.value (tree_at table.now node) }
{
    if before.many == MOST_DIGITS {
        return None;
    }
    let a = nodes::word(table, node * 2);
    if a == 0 {
        return Some(before.and(0));
    }
    let b = nodes::word(table, node * 2 + 1);
    if b == 0 {
        return take_text(table, a - 1, before.and(1));
    }
    let first = take_text(table, a - 1, before.and(2))?;
    take_text(table, b - 1, first)
}

// The code of a node's tree, or none where its text has more than ten digits: 1, 2, then 3. The table is only read.
pub fn code(table: &[u32], used: usize, node: usize) -> Result<Option<usize>, Refusal>
    ensures { result ≡ code table.now used node }
{
    entry_check::check(true, table, used, &[])?;
    if used <= node {
        return Err(Refusal::Node);
    }
    let Some(text) = take_text(table, node, Digits { many: 0, value: 0 }) else {
        return Ok(None);
    };
    Ok(Some(code_values::place_at_most(text.value)))
}
