// The check of a week, a day and a minute in code: 13. The definitions and their theorems are in the crate `week`.
#![tactic(auto)]

ghost use Rattle.std.specs.Prelude.{◌≡◌};
ghost use Rattle.week.specs.Weeks.{is_day, is_week, passes};
ghost use Rattle.week_check.specs.Code.{fits};

use week::Window;

// The last minute of a day.
const LAST_MINUTE: usize = 1439;

// Whether a place may stand after a window that ends at the minute `from`: it is unused, or a window that begins there or later.
fn fits(from: u32, place: Window) -> bool
    ensures { result ≡ fits from place }
{
    if place.packet == 0 {
        return place.first == 0 && place.end == 0;
    }
    place.packet <= 28 && place.end <= 1440 && place.first < place.end && from <= place.first
}

// Whether the windows of a day are right and in order. After an unused place no window begins before the day's end, so that there can be none.
fn is_day(day: &[Window; 4]) -> bool
    ensures { result ≡ is_day day.now }
{
    let mut from = 0;
    for place in day {
        if !fits(from, *place) {
            return false;
        }
        from = if place.packet == 0 { 1440 } else { place.end };
    }
    true
}

// Whether each day of a week is right.
fn is_week(week: [[Window; 4]; 7]) -> bool
    ensures { result ≡ is_week week }
{
    week.iter().all(is_day)
}

// Whether week, day and minute pass 13.
pub fn passes(week: [[Window; 4]; 7], day: usize, minute: usize) -> bool
    ensures { result ≡ passes week day minute }
{
    day <= 6 && minute <= LAST_MINUTE && is_week(week)
}
