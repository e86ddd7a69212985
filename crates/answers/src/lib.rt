// The numbers of the operations' answers, as the exported functions put them into the caller's array: five, or what the operation says. The answers of
// Apply and Run, with their uses, are in the crate `counted`. specs/ says in which order they stand. They are functions and no
// `From`, since neither type is of this crate and most take the count of used nodes at entry besides.
#![tactic(auto)]

ghost use Rattle.std.specs.Prelude.{◌≡◌};
ghost use Rattle.table.specs.Refusal.{refused_numbers, made_numbers};
ghost use Rattle.table.specs.Same.{same_numbers};
ghost use Rattle.ternary.specs.Write as writing;
ghost use Rattle.labelled.specs.Unlabel as unlabelling;
ghost use Rattle.running.specs.Run as running;
ghost use Rattle.grammar.specs.Outcome as grammar;
ghost use Rattle.answers.specs.Listed.{listed};

use labelled::Parts;
use running::Ran;
use table::{Made, Refusal};

// The numbers of a refusal, with `used` as at entry.
#[tactic(auto, unfolding(table::specs::Refusal::refused_numbers))]
fn refused(used: usize, refusal: Refusal) -> [usize; 5]
    ensures { result ≡ listed (refused_numbers used refusal) }
{
    [refusals::number(refusal), 0, used, 0, 0]
}

// The numbers of the answer of Read, Translate and Label.
#[tactic(auto, unfolding(table::specs::Refusal::made_numbers))]
pub fn made(used: usize, answer: Result<Made, Refusal>) -> [usize; 5]
    ensures { result ≡ listed (made_numbers used answer) }
{
    match answer {
        Ok(made) => [0, made.node, made.used, 0, 0],
        Err(refusal) => refused(used, refusal),
    }
}

// The numbers of Write's answer.
#[tactic(auto, unfolding(ternary::specs::Write::written_numbers))]
pub fn written(used: usize, answer: Result<usize, Refusal>) -> [usize; 5]
    ensures { result ≡ listed (writing.written_numbers used answer) }
{
    match answer {
        Ok(digits) => [0, 0, used, 0, digits],
        Err(refusal) => refused(used, refusal),
    }
}

// The numbers of the answer of `label_packet`, which is Run's without its uses.
#[tactic(auto, unfolding(running::specs::Run::ran_numbers))]
pub fn labelled(answer: Result<Ran, Refusal>) -> [usize; 5]
    ensures { result ≡ listed (running.ran_numbers answer) }
{
    match answer {
        Ok(ran) => [0, 0, ran.used, ran.steps, ran.digits],
        Err(refusal) => refused(0, refusal),
    }
}

// The numbers of the answer to a labelled tree.
#[tactic(auto, unfolding(labelled::specs::Unlabel::unlabelled_numbers))]
pub fn unlabelled(used: usize, answer: Result<Parts, Refusal>) -> [usize; 6]
    ensures { result ≡ unlabelling.unlabelled_numbers used answer }
{
    match answer {
        Ok(Parts { rule, label }) => [0, rule, used, 0, 0, label],
        Err(refusal) => [refusals::number(refusal), 0, used, 0, 0, 0],
    }
}

// The numbers of the answer to a rule text.
#[tactic(auto, unfolding(grammar::specs::Outcome::encoded_numbers))]
pub fn encoded(answer: Result<usize, Refusal>) -> [usize; 2]
    ensures { result ≡ grammar.encoded_numbers answer }
{
    match answer {
        Ok(n) => [0, n],
        Err(refusal) => [refusals::number(refusal), 0],
    }
}

// The numbers of the answer of `same`.
#[tactic(auto, unfolding(table::specs::Same::same_numbers))]
pub fn compared(answer: Result<bool, Refusal>) -> [usize; 2]
    ensures { result ≡ same_numbers answer }
{
    match answer {
        Ok(equal) => [0, usize::from(equal)],
        Err(refusal) => [refusals::number(refusal), 0],
    }
}
