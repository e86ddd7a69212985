// The refusals' numbers in code, and those of an answer that gives a number or none. The definitions are in the crate `table`.
#![tactic(auto)]

ghost use Rattle.std.specs.Prelude.{◌≡◌};
ghost use Rattle.table.specs.Refusal.{number, given_numbers};

use table::Refusal;

// The number of a refusal, by name, since the papers give it. A function and no `From`: an impl stands with the enum, in a crate of definitions.
#[tactic(auto, unfolding(table::specs::Refusal::number))]
pub fn number(refusal: Refusal) -> usize
    ensures { result ≡ number refusal }
{
    match refusal {
        Refusal::Limits => 1,
        Refusal::Broken => 2,
        Refusal::Node => 3,
        Refusal::Text => 4,
        Refusal::Rule => 5,
        Refusal::Packet => 6,
        Refusal::Steps => 7,
        Refusal::Nodes => 8,
        Refusal::Frames => 9,
        Refusal::Out => 10,
        Refusal::Label => 11,
        Refusal::RuleText => 12,
        Refusal::Week => 13,
        Refusal::Weight => 14,
    }
}

// The numbers of an answer that gives a number or none. No `From`, since neither type is of this crate.
#[tactic(auto, unfolding(table::specs::Refusal::given_numbers))]
pub fn given(answer: Result<Option<usize>, Refusal>) -> [usize; 3]
    ensures { result ≡ given_numbers answer }
{
    match answer {
        Ok(Some(n)) => [0, 1, n],
        Ok(None) => [0, 0, 0],
        Err(refusal) => [number(refusal), 0, 0],
    }
}
