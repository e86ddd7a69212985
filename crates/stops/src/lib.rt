// Where a run stopped: a packet run and told (the crate `teller`), and what `stopped` gives of it. The definition and its theorems are in the crate
// `stopping`.
#![tactic(auto)]

ghost use Rattle.std.specs.Prelude.{◌≡◌};
ghost use Rattle.table.specs.Outcome.{whole_out};
ghost use Rattle.stopping.specs.Stopped as stopping;

use applying::Rule;
use running::Told;
use stopping::{Kind, Stopped};

// Which of the five a rule is.
// A function and no `From`: an impl stands with one of its types, and both are in crates of definitions.
#[tactic(auto, unfolding(stopping::specs::Stopped::kind))]
fn kind(rule: Rule) -> Kind
    ensures { result ≡ stopping.kind rule }
{
    match rule {
        Rule::Leaf => Kind::Leaf,
        Rule::Stem(_) => Kind::Stem,
        Rule::Drop(_) => Kind::Drop,
        Rule::Spread(_, _) => Kind::Spread,
        Rule::Triage(_, _) => Kind::Triage,
    }
}

// What is given of a run that was told: where applying stopped, or Run's number alone.
#[tactic(auto, unfolding(stopping::specs::Stopped::stop_by))]
fn stop(told: Told) -> Stopped
    ensures { result ≡ stopping.stop_by told.ran told.stop }
{
    match (told.ran, told.stop) {
        (Ok(_), _) => Stopped::Completed,
        (Err(refusal), None) => Stopped::Refused(refusal),
        (Err(refusal), Some(at)) => Stopped::Applying {
            refusal: refusal,
            place: at.place,
            steps: at.steps,
            rule: kind(at.rule),
        },
    }
}

// Runs a packet with the table taken as empty, and gives where applying stopped.
pub fn stopped(table: &mut [u32], stack: &mut [u32], out: &mut [u8], packet: &[u8]) -> Stopped
    ensures { whole_out result table.new stack.new out.new
        ≡ stopping.stopped table.old stack.old out.old packet.now }
{
    stop(teller::tell(table, stack, out, packet))
}

// The number of a rule, in document 01's order, from 1.
#[tactic(auto, unfolding(stopping::specs::Stopped::kind_number))]
fn kind_number(kind: Kind) -> usize
    ensures { result ≡ stopping.kind_number kind }
{
    kind as usize + 1
}

// The four numbers of the answer: Run's number, the place, the steps and the rule.
#[tactic(auto, unfolding(stopping::specs::Stopped::stopped_numbers))]
pub fn numbers(answer: Stopped) -> [usize; 4]
    ensures { result ≡ stopping.stopped_numbers answer }
{
    match answer {
        Stopped::Applying {
            refusal,
            place,
            steps,
            rule,
        } => [refusals::number(refusal), place, steps, kind_number(rule)],
        Stopped::Refused(refusal) => [refusals::number(refusal), 0, 0, 0],
        Stopped::Completed => [0, 0, 0, 0],
    }
}
