// A week that is lent as 84 numbers, and its answers. The definitions are in the crate `week`.
#![tactic(auto)]

ghost use Rattle.std.specs.Prelude.{◌≡◌, ◌+◌, ◌*◌, ◌≤◌, length};
ghost use Rattle.week.specs.Weeks.{window_at, next_window};
ghost use Rattle.week.specs.Lent.{place_of, day_of, lent};
ghost use Rattle.week_numbers.specs.Code.{week_lent};

use std::array;
use table::Refusal;
use week::Window;

// The place whose three numbers begin at `at`.
fn place_of(numbers: &[u32], at: usize) -> Window
    requires { at + 3 ≤ length numbers.now }
    ensures { result ≡ place_of numbers.now at }
{
    Window {
        first: numbers[at],
        end: numbers[at + 1],
        packet: numbers[at + 2],
    }
}

// The day whose twelve numbers begin at `at`.
fn day_of(numbers: &[u32], at: usize) -> [Window; 4]
    requires { at + 12 ≤ length numbers.now }
    ensures { result ≡ day_of numbers.now at }
{
    array::from_fn(|i| place_of(numbers, at + 3 * i))
}

// The week of 84 numbers. Any other count is a broken week.
fn week_of(numbers: &[u32]) -> Result<[[Window; 4]; 7], Refusal>
    ensures { result ≡ week_lent numbers.now }
{
    if numbers.len() != 84 {
        return Err(Refusal::Week);
    }
    // The check infers no clauses of this closure, so they are written.
    let day = |d: usize| -> [Window; 4]
        requires { 12 * d + 12 ≤ length numbers.now }
        ensures { result ≡ day_of numbers.entry.now (12 * d) }
    { day_of(numbers, 12 * d) };
    Ok(array::from_fn(day))
}

// The packet at a minute of a lent week.
pub fn window_at(numbers: &[u32], day: usize, minute: usize) -> Result<Option<usize>, Refusal>
    ensures { result ≡ lent window_at numbers.now day minute }
{
    windows::window_at(week_of(numbers)?, day, minute)
}

// The minutes until the next window of a lent week begins. One line beside that of `window_at`: a closure for the operation would be no shorter.
pub fn next_window(numbers: &[u32], day: usize, minute: usize) -> Result<Option<usize>, Refusal>
    ensures { result ≡ lent next_window numbers.now day minute }
{
    windows::next_window(week_of(numbers)?, day, minute)
}
