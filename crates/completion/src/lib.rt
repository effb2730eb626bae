// Holds for the first flights of a day: whether they can be completed to a legal plan. What they leave of the day, the places that are left
// in its periods and the flights behind them, is a day too, and the search for a short stretch decides whether that has a legal plan.
#![tactic(auto)]

ghost use Rattle.std.specs.Prelude.{◌≡◌, true, cond, ◌+◌, ◌*◌, ◌<◌, ◌≤◌, length, get_or};
ghost use Rattle.answers.specs.Decides.{Decides};
ghost use Rattle.day.specs.Day.{most_periods, width, has_line, valid, N, P, counted};
ghost use Rattle.day.specs.Checked.{day_of};
ghost use Rattle.day.specs.Plan.{HasPlan};
ghost use Rattle.completion.specs.Rest.{rest_of};
ghost use Rattle.completion.specs.Loop.{AllPlaces, Partial, Landed, MostCompleted};

use day::{UNLIMITED, ValidDay, WIDTH, counted_of};
use legality::is_too_long;
use stretch::find_short;

// The places of a day before any flight has landed, at the front of a row; how many periods are counted.
pub fn all_places(capacities: &[u32], closing: u32, left: &mut [u32]) -> usize
    requires { (length capacities.now ≤ most_periods) × (length capacities.now < length left.old) }
    ensures { AllPlaces capacities.now closing left.new result }
{
    let periods = capacities.len();
    // Kept: entry by entry. Where nothing says that two rows lie apart, copy_from_slice makes the library need memmove.
    for k in 0..periods {
        left[k] = capacities[k];
    }
    left[periods] = closing;
    counted_of(periods, closing)
}

// Takes the landing of the flight at table place i from the places left, unless its hold breaks the row.
pub fn take_landing(day: ValidDay, holds: &[u32], i: usize, left: &mut [u32]) -> bool
    requires { Partial (day_of day) holds.now left.old i × (i < N (day_of day)) }
    ensures { Landed (day_of day.entry) holds.now left.new i result }
{
    let k = day.land_of(holds, i);
    if is_too_long(day.capacities.len(), day.flight_at(i), k) {
        return false;
    }
    if day.counted() < k {
        return true;
    }
    let at = k - 1;
    if left[at] == 0 {
        return false;
    }
    left[at] -= 1;
    true
}

// Gives the landing of the flight at table place i back, which was taken last.
fn give_back(day: ValidDay, holds: &[u32], i: usize, left: &mut [u32])
    requires { Partial (day_of day) holds.now left.old (i + 1) }
    ensures { Partial (day_of day.entry) holds.now left.new i }
{
    let k = day.land_of(holds, i);
    if k <= day.counted() {
        let at = k - 1;
        left[at] += 1;
    }
}

// How many may land in the closing period yet: any number, if there is no closing line.
fn closing_left(day: ValidDay, left: &[u32]) -> u32
    requires { length left.now ≡ counted (day_of day) }
    ensures { result ≡ cond (has_line day.entry.closing) (get_or left.now (P (day_of day.entry)) 0) day.entry.closing }
{
    if day.closing < UNLIMITED {
        return left[day.capacities.len()];
    }
    day.closing
}

// Whether the flights from table place i on have a legal plan of their own in the places left.
fn rest_has_plan(day: ValidDay, i: usize, left: &[u32]) -> bool
    requires { (length left.now ≡ counted (day_of day)) × (i * width ≤ length day.flights.now) × (valid (rest_of left.now day.flights.now (P (day_of day)) day.closing i) ≡ true) }
    ensures { Decides result (HasPlan (rest_of left.now day.entry.flights.now (P (day_of day.entry)) day.entry.closing i)) }
{
    let open = closing_left(day, left);
    let rest = ValidDay {
        capacities: &left[..day.capacities.len()],
        flights: &day.flights[i * WIDTH..],
        closing: open,
    };
    find_short(rest).is_none()
}

// The most of the first i flights whose holds can be completed to a legal plan; none if the day has no legal plan. Holds are taken back from
// the last on: whoever cannot complete some cannot complete more.
pub fn most_completed(day: ValidDay, holds: &[u32], i: usize, left: &mut [u32]) -> Option<usize>
    requires { Partial (day_of day) holds.now left.old i }
    ensures { MostCompleted (day_of day.entry) holds.now i result }
{
    if rest_has_plan(day, i, left) {
        return Some(i);
    }
    for m in (0..i).rev() {
        give_back(day, holds, m, left);
        if rest_has_plan(day, m, left) {
            return Some(m);
        }
    }
    None
}
