// Opening windows in code: the packet at a minute of the week, and the minutes until the next window begins; 13 before all else. The definitions and their
// theorems are in the crate `week`.
#![tactic(auto)]

ghost use Rattle.std.specs.Prelude.{◌≡◌};
ghost use Rattle.week.specs.Weeks.{packet_at, window_at, next_window};
ghost use Rattle.windows.specs.Code.{found_of, first_from};

use table::Refusal;
use week::Window;

// The packet of the window of a day that holds a minute.
fn packet_at(day: &[Window; 4], minute: usize) -> Option<usize>
    ensures { found_of result ≡ packet_at minute day.now }
{
    day.iter()
        .find(|place| place.first as usize <= minute && minute < place.end as usize)
        .map(|place| place.packet as usize)
}

// The packet at a minute of a day of the week: 13, then the packet of the window that holds it.
pub fn window_at(
    week: [[Window; 4]; 7],
    day: usize,
    minute: usize,
) -> Result<Option<usize>, Refusal>
    ensures { result ≡ window_at week day minute }
{
    if !week_check::passes(week, day, minute) {
        return Err(Refusal::Week);
    }
    Ok(packet_at(&week[day], minute))
}

// The first beginning of a day at the minute `from` or later. The windows ascend and unused places come last, so that the search ends at the first.
fn first_from(day: &[Window; 4], from: usize) -> Option<usize>
    ensures { found_of result ≡ first_from from day.now }
{
    for place in day {
        if place.packet == 0 {
            return None;
        }
        if from <= place.first as usize {
            return Some(place.first as usize);
        }
    }
    None
}

// The minutes until the next window begins: 13, then the first beginning of this day from the minute on, of the days ahead, or of this day next week.
pub fn next_window(
    week: [[Window; 4]; 7],
    day: usize,
    minute: usize,
) -> Result<Option<usize>, Refusal>
    ensures { result ≡ next_window week day minute }
{
    if !week_check::passes(week, day, minute) {
        return Err(Refusal::Week);
    }
    let mut from = minute;
    for ahead in 0..8 {
        let d = (day + ahead) % 7;
        if let Some(first) = first_from(&week[d], from) {
            return Ok(Some(ahead * 1440 + first - minute));
        }
        from = 0;
    }
    Ok(None)
}
