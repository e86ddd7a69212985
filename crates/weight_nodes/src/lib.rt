// The operations on weights that make nodes ([9]): the weight of a number of grams, and the sum of two weights. The definitions and their theorems are in
// the crate `weights`; `weight_list` lays a list of digits out, with the checks 1 and 2. So that no table is checked twice, digits are read before it is.
#![tactic(auto)]

ghost use Rattle.std.specs.Prelude.{◌≡◌, true, []};
ghost use Rattle.table.specs.Nodes.{tree_at};
ghost use Rattle.table.specs.Branches.{InUse};
ghost use Rattle.table.specs.Outcome.{whole, at_entry, unless};
ghost use Rattle.weights.specs.Digits.{digits_of, digits_of_weight, add_digits, sum_digits};
ghost use Rattle.weights.specs.Weights as weighing;
ghost use Rattle.weight_digits.specs.Code.{digits_by};

use table::{Made, Refusal};
use weights::Digits;

// The lowest nine digits of a number.
fn digits_of(grams: usize) -> Digits
    ensures { result.digits ≡ digits_of 9 grams }
{
    let mut digits = [0usize; 9];
    let mut rest = grams;
    for d in &mut digits {
        *d = rest % 10;
        rest /= 10;
    }
    Digits { digits }
}

// The digits of the sum of two weights, or none where a carry is left.
fn add_digits(a: Digits, b: Digits) -> Option<Digits>
    ensures { digits_by result ≡ add_digits a.digits b.digits 0 }
{
    let mut digits = [0usize; 9];
    let mut carry: usize = 0;
    for i in 0..9 {
        let sum = carry + a.digits[i] + b.digits[i];
        digits[i] = sum % 10;
        carry = sum / 10;
    }
    if carry == 0 {
        Some(Digits { digits })
    } else {
        None
    }
}

// The digits of the sum of the weights at two nodes.
fn read_sum(table: &[u32], a: usize, b: usize) -> Option<Digits>
    ensures { InUse table.now a → InUse table.now b
        → digits_by result ≡ sum_digits (digits_of_weight (tree_at table.now a)) (digits_of_weight (tree_at table.now b)) }
{
    let first = weight_digits::read_digits(table, a)?;
    let second = weight_digits::read_digits(table, b)?;
    add_digits(first, second)
}

// Refused with 1 or 2, else with the refusal that is given.
fn refuse(table: &[u32], used: usize, last: Refusal) -> Result<Made, Refusal>
    ensures { result ≡ unless (at_entry true table.now used []) Err (Err last) }
{
    entry_check::check(true, table, used, &[])?;
    Err(last)
}

// The weight of a number of grams: 1, 2, 14 above the top, then 8.
pub fn weight(table: &mut [u32], used: usize, grams: usize) -> Result<Made, Refusal>
    ensures { whole result table.new [] ≡ weighing.weight table.old used grams }
{
    if 999999999 < grams {
        return refuse(table, used, Refusal::Weight);
    }
    weight_list::lay_digits(table, used, digits_of(grams))
}

// The sum of the weights at two nodes: 1, 2, 3 for either, 14 where one is not a weight or the sum is above the top, then 8.
pub fn add_weights(table: &mut [u32], used: usize, a: usize, b: usize) -> Result<Made, Refusal>
    ensures { whole result table.new [] ≡ weighing.add_weights table.old used a b }
{
    if used <= a || used <= b {
        return refuse(table, used, Refusal::Node);
    }
    match read_sum(table, a, b) {
        Some(sum) => weight_list::lay_digits(table, used, sum),
        None => refuse(table, used, Refusal::Weight),
    }
}
