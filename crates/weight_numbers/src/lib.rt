// The numbers of the answers of `grams` and `compare_weights` ([9]), as the exported functions put them into the caller's array. The definitions are in the
// crate `weights`.
#![tactic(auto)]

ghost use Rattle.std.specs.Prelude.{◌≡◌};
ghost use Rattle.weights.specs.Weights.{weighed_numbers, ordered_numbers};

use std::cmp::Ordering;
use table::Refusal;

// The refusal, and the grams. No `From` here and below, since neither type is of this crate; and no function shared with `encoded` of `answers`, since each
// states a definition of its own.
#[tactic(auto, unfolding(weights::specs::Weights::weighed_numbers))]
pub fn weighed(answer: Result<usize, Refusal>) -> [usize; 2]
    ensures { result ≡ weighed_numbers answer }
{
    match answer {
        Ok(grams) => [0, grams],
        Err(refusal) => [refusals::number(refusal), 0],
    }
}

// The refusal, and 0 for less, 1 for equal, 2 for greater.
#[tactic(auto, unfolding(weights::specs::Weights::ordered_numbers))]
pub fn ordered(answer: Result<Ordering, Refusal>) -> [usize; 2]
    ensures { result ≡ ordered_numbers answer }
{
    match answer {
        Ok(Ordering::Less) => [0, 0],
        Ok(Ordering::Equal) => [0, 1],
        Ok(Ordering::Greater) => [0, 2],
        Err(refusal) => [refusals::number(refusal), 0],
    }
}
