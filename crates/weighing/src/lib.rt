// The operations on weights that only read ([9]): the grams of a node, and two nodes compared. The definitions and their theorems are in the crate
// `weights`, the digits are read in `weight_digits`.
#![tactic(auto)]

ghost use Rattle.std.specs.Prelude.{◌≡◌};
ghost use Rattle.weights.specs.Digits.{grams_of, compare_digits};
ghost use Rattle.weights.specs.Weights as weighing;

use std::cmp::Ordering;
use table::Refusal;
use weights::Digits;

// The number that nine digits are.
fn grams_of(weight: Digits) -> usize
    ensures { result ≡ grams_of weight.digits }
{
    let mut total: usize = 0;
    for i in (0..9).rev() {
        total = total * 10 + weight.digits[i];
    }
    total
}

// Two lists of nine digits compared, highest first, up to one that differs.
fn compare_digits(a: Digits, b: Digits) -> Ordering
    ensures { result ≡ compare_digits a.digits b.digits }
{
    a.digits.iter().rev().cmp(b.digits.iter().rev())
}

// The grams of the weight at a node: 1, 2, 3, then 14. The table is only read.
pub fn grams(table: &[u32], used: usize, node: usize) -> Result<usize, Refusal>
    ensures { result ≡ weighing.grams table.now used node }
{
    entry_check::check(true, table, used, &[])?;
    if used <= node {
        return Err(Refusal::Node);
    }
    let digits = weight_digits::read_digits(table, node).ok_or(Refusal::Weight)?;
    Ok(grams_of(digits))
}

// What the weight at node a is beside that at node b: 1, 2, 3 for either, then 14 for either. The table is only read.
pub fn compare_weights(table: &[u32], used: usize, a: usize, b: usize) -> Result<Ordering, Refusal>
    ensures { result ≡ weighing.compare_weights table.now used a b }
{
    entry_check::check(true, table, used, &[])?;
    if used <= a || used <= b {
        return Err(Refusal::Node);
    }
    let first = weight_digits::read_digits(table, a).ok_or(Refusal::Weight)?;
    let second = weight_digits::read_digits(table, b).ok_or(Refusal::Weight)?;
    Ok(compare_digits(first, second))
}
