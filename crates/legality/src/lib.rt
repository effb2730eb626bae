// A hold row checked against its day: refusals 6, 7 and 10, or the plan's total.
#![tactic(auto)]

ghost use Rattle.std.specs.Prelude.{◌≡◌, true, ◌+◌, ◌*◌, ◌<◌, ◌≤◌, length};
ghost use Rattle.day.specs.Day.{most_periods, N, total_of};
ghost use Rattle.day.specs.Checked.{lent_day, day_of};
ghost use Rattle.day.specs.Plan.{too_long_of};
ghost use Rattle.legality.specs.Check.{plan_check};
ghost use Rattle.legality.specs.Loop.{Walked, FirstBreak, CanSum};

use answers::Refusal;
use day::{Flight, LentDay, PERIOD_ROW, ValidDay, cost_of, latest_of};

// A landing of a flight in period k is after the closing period or over its limit, on a day of so many periods.
pub fn is_too_long(periods: usize, f: Flight, k: usize) -> bool
    requires { periods ≤ most_periods }
    ensures { result ≡ too_long_of periods f k }
{
    periods + 1 < k || latest_of(periods, f) < k
}

// The walk of refusal 10, with a row in which landings are counted by period on the way: the first flight that breaks the hold row. No day
// has the landings that would fill a closing period without a line.
fn walk(day: ValidDay, holds: &[u32], loads: &mut [usize]) -> Option<usize>
    requires { Walked (day_of day) holds.now loads.old 0 }
    ensures { FirstBreak (day_of day.entry) holds.now result }
{
    for place in 0..holds.len() {
        let k = day.land_of(holds, place);
        if is_too_long(day.capacities.len(), day.flight_at(place), k) {
            return Some(place);
        }
        let load = loads[k] + 1;
        if day.capacity_of(k) < load {
            return Some(place);
        }
        loads[k] = load;
    }
    None
}

// The first flight that breaks a row of N holds.
fn first_break(day: ValidDay, holds: &[u32]) -> Option<usize>
    requires { length holds.now ≡ N (day_of day) }
    ensures { FirstBreak (day_of day.entry) holds.now result }
{
    let mut loads = [0; PERIOD_ROW];
    walk(day, holds, &mut loads)
}

// The plan's total.
pub fn total_of(flights: &[u32], holds: &[u32]) -> usize
    requires { CanSum flights.now holds.now }
    ensures { result ≡ total_of flights.now holds.now }
{
    let mut sum = 0;
    for (i, hold) in holds.iter().enumerate() {
        sum += cost_of(flights, i, *hold as usize);
    }
    sum
}

// The total of a legal plan, or the refusal, for a valid day and a hold row of any content and length.
pub fn check_holds(day: ValidDay, holds: &[u32]) -> Result<usize, Refusal>
    ensures { result ≡ plan_check (day_of day.entry) holds.now }
{
    let needed = day.flight_count();
    if holds.len() != needed {
        return Err(Refusal::BadLength { needed });
    }
    if let Some(place) = first_break(day, holds) {
        return Err(Refusal::NotLegal { place });
    }
    Ok(total_of(day.flights, holds))
}

// The same for a day of any content and length.
pub fn check_plan(day: LentDay, holds: &[u32]) -> Result<usize, Refusal>
    ensures { result ≡ plan_check (lent_day day.entry) holds.now }
{
    check_holds(day.check()?, holds)
}
