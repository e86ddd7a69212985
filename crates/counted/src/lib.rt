// The ten numbers of the answers of Apply and Run, as the exported functions put them into the caller's array: the five, and the uses of leaf, stem,
// drop, spread and triage. The definitions are in the crates `applying`, `running` and `answers`. They are functions and no `From`, since
// neither type is of this crate.
#![tactic(auto)]

ghost use Rattle.std.specs.Prelude.{◌≡◌};
ghost use Rattle.calculus.specs.Uses.{no_uses};
ghost use Rattle.table.specs.Refusal.{refused_numbers};
ghost use Rattle.applying.specs.Apply as applying;
ghost use Rattle.running.specs.Run as running;
ghost use Rattle.answers.specs.Listed.{listed_uses};

use applying::Applied;
use calculus::Uses;
use running::Ran;
use table::Refusal;

// The numbers of a refusal, with `used` as at entry: no uses are told. Ten numbers written out, which is plainer than copying five of a function for both.
#[tactic(auto, unfolding(table::specs::Refusal::refused_numbers))]
fn refused_uses(used: usize, refusal: Refusal) -> [usize; 10]
    ensures { result ≡ listed_uses (refused_numbers used refusal) no_uses }
{
    [refusals::number(refusal), 0, used, 0, 0, 0, 0, 0, 0, 0]
}

// The ten numbers of an answer of Apply or Run that is no refusal.
fn completed(node: usize, used: usize, steps: usize, digits: usize, uses: Uses) -> [usize; 10]
    ensures { result ≡ listed_uses (record { refusal = 0; node = node; used = used; steps = steps; digits = digits }) uses }
{
    [
        0,
        node,
        used,
        steps,
        digits,
        uses.leaf,
        uses.stem,
        uses.drop,
        uses.spread,
        uses.triage,
    ]
}

// The numbers of Apply's answer.
#[tactic(auto, unfolding(applying::specs::Apply::applied_numbers, applying::specs::Apply::applied_uses))]
pub fn applied(used: usize, answer: Result<Applied, Refusal>) -> [usize; 10]
    ensures { result ≡ listed_uses (applying.applied_numbers used answer) (applying.applied_uses answer) }
{
    match answer {
        Ok(done) => completed(done.node, done.used, done.steps, 0, done.uses),
        Err(refusal) => refused_uses(used, refusal),
    }
}

// The numbers of Run's answer.
#[tactic(auto, unfolding(running::specs::Run::ran_numbers, running::specs::Run::ran_uses))]
pub fn ran(answer: Result<Ran, Refusal>) -> [usize; 10]
    ensures { result ≡ listed_uses (running.ran_numbers answer) (running.ran_uses answer) }
{
    match answer {
        Ok(ran) => completed(0, ran.used, ran.steps, ran.digits, ran.uses),
        Err(refusal) => refused_uses(0, refusal),
    }
}
