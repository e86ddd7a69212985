// The list of nine digits laid out in a table ([9]): its text is written into an array, and Read takes it, with a stack of three frames of its own. The
// definitions and their theorems are in the crate `weights`.
#![tactic(auto)]

ghost use Rattle.std.specs.Prelude.{◌≡◌, [], ◌∷◌, ◌+◌, ◌≤◌, length};
ghost use Rattle.std.proofs.Math.Option.{some};
ghost use Rattle.table.specs.Outcome.{whole};
ghost use Rattle.table.specs.Wrote.{Wrote};
ghost use Rattle.ternary.specs.Text.{text};
ghost use Rattle.weights.specs.Digits.{digit_tree, list_tree};
ghost use Rattle.weights.specs.Weights.{checked_digits};

use table::{Made, Refusal};
use weights::Digits;

// Writes what a list's text begins with before its rest: the digit 2, and the text of the first item.
fn put_item(bytes: &mut [u8], at: usize, d: usize) -> usize
    requires { (d ≤ 9) × (at + 20 ≤ length bytes.old) }
    ensures { Wrote bytes.old at (50 ∷ text (digit_tree d)) result bytes.new × (result ≤ at + 20) }
{
    bytes[at] = b'2';
    let mut end = at + 1;
    for _ in 0..d {
        bytes[end] = b'2';
        bytes[end + 1] = b'0';
        end += 2;
    }
    bytes[end] = b'0';
    end + 1
}

// Writes the text of the list of nine digits.
fn put_list(bytes: &mut [u8], weight: Digits) -> usize
    requires { length bytes.old ≡ 181 }
    ensures { Wrote bytes.old 0 (text (list_tree weight.digits)) result bytes.new }
{
    let mut at: usize = 0;
    for d in weight.digits {
        at = put_item(bytes, at, d);
    }
    bytes[at] = b'0';
    at + 1
}

// Lays the list of nine digits out: 1 and 2, then its nodes with 8.
pub fn lay_digits(table: &mut [u32], used: usize, weight: Digits) -> Result<Made, Refusal>
    ensures { whole result table.new [] ≡ checked_digits table.old used (some weight.digits) }
{
    // An array and a count: no heap is used.
    let mut bytes = [0u8; 181];
    let n = put_list(&mut bytes, weight);
    let mut stack = [0u32; 9];
    read::read(table, used, &mut stack, &bytes[..n])
}
