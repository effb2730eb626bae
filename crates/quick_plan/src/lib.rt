// The quick plan: period by period, those of the flights that wait land that go first, which are those that one more period of hold
// would cost most. A hold row starts with every flight at the closing period, so that a flight that stands there has yet to land.
#![tactic(auto)]

ghost use Rattle.std.specs.Prelude.{◌≡◌, true, ◌+◌, ◌*◌, ◌<◌, ◌≤◌, length, MatchResult, Ok, Err};
ghost use Rattle.assignment.specs.Rows.{row};
ghost use Rattle.day.specs.Day.{N, P, most_periods, width, flight_count, capacity};
ghost use Rattle.day.specs.Checked.{lent_day, day_of};
ghost use Rattle.day.specs.Plan.{jump_or_limit, first_jump_or_limit};
ghost use Rattle.growth.specs.Growth.{HoldsFactors};
ghost use Rattle.quick_plan.specs.NextCost.{next_cost, fits};
ghost use Rattle.quick_plan.specs.Quick.{before};
ghost use Rattle.quick_plan.specs.Loop.{without_line, lent_rows, DueBy, at_closing, waiting, top, land_all, row_to};
ghost use Rattle.quick_plan.specs.Calls.{place_if, quick_check, quick_plan};

use answers::Refusal;
use day::{
    Flight, LentDay, MISSING, ValidDay, due_of, flight_at, flight_count, of_period, rate_of,
};
use growth::{FactorTable, factor_table, further_cost};
use legality::total_of;
use stretch::{Stretch, find_short};

// What one more period of hold costs: the rate, or in millionths what grows with the hold.
#[derive(Clone, Copy)]
pub enum NextCost {
    Rate,
    Growing { growth: usize },
}

// A flight that waits: its table place, and what one more period of hold costs it.
#[derive(Clone, Copy)]
struct Waiting {
    place: usize,
    cost: usize,
}

// What one more period of hold costs flight i in period j.
fn next_cost(next: NextCost, factors: &FactorTable, flights: &[u32], j: usize, i: usize) -> usize
    requires { HoldsFactors factors.now × (fits next j ≡ true) × DueBy flights.now j i }
    ensures { result ≡ next_cost next flights.now j i }
{
    let rate = rate_of(flights, i);
    match next {
        NextCost::Rate => rate,
        NextCost::Growing { growth } => {
            further_cost(factors, growth, rate, j - due_of(flights, i))
        }
    }
}

// The one goes before the other: its next cost is higher; of equal ones it is due earlier, or at the same due it has the lower place.
fn goes_before(flights: &[u32], one: Waiting, other: Waiting) -> bool
    requires { ((one.place + 1) * width ≤ length flights.now) × ((other.place + 1) * width ≤ length flights.now) }
    ensures { result ≡ before flights.now one.cost other.cost one.place other.place }
{
    if one.cost != other.cost {
        return other.cost < one.cost;
    }
    // Kept: part by part, since a comparison of pairs compares both parts each time: where costs are equal, the growing plan then takes 1.4 times
    // the instructions.
    let one_due = due_of(flights, one.place);
    let other_due = due_of(flights, other.place);
    if one_due != other_due {
        return one_due < other_due;
    }
    one.place < other.place
}

// Flight i is due by period j, and stands at the closing period yet. Kept: two rows, since it asks less than a valid day.
#[tactic(auto, unfolding(crate::specs::Loop::waiting))]
pub fn is_waiting(capacities: &[u32], flights: &[u32], holds: &[u32], j: usize, i: usize) -> bool
    requires { ((i + 1) * width ≤ length flights.now) × (i < length holds.now) × (length capacities.now ≤ most_periods) }
    ensures { result ≡ waiting (lent_rows capacities.entry flights.entry) holds.now j i }
{
    let due = due_of(flights, i);
    due <= j && due + holds[i] as usize == capacities.len() + 1
}

// The flight that goes first of those that wait in period j. The next cost of the best one so far is kept, so that each is worked out once.
fn first_waiting(
    next: NextCost,
    factors: &FactorTable,
    day: ValidDay,
    holds: &[u32],
    j: usize,
) -> Option<usize>
    requires { (length holds.now ≡ N (day_of day)) × HoldsFactors factors.now × (fits next j ≡ true) }
    ensures { result ≡ place_if (length holds.now) (top (without_line (day_of day.entry)) (next_cost next day.entry.flights.now j) j holds.now) }
{
    let mut best: Option<Waiting> = None;
    for place in 0..holds.len() {
        if is_waiting(day.capacities, day.flights, holds, j, place) {
            let cost = next_cost(next, factors, day.flights, j, place);
            let one = Waiting { place, cost };
            match best {
                Some(other) if !goes_before(day.flights, one, other) => {}
                _ => best = Some(one),
            }
        }
    }
    best.map(|b| b.place)
}

// Lands as many flights as period j takes, or all that wait.
fn land_period(next: NextCost, factors: &FactorTable, day: ValidDay, holds: &mut [u32], j: usize)
    requires { (length holds.old ≡ N (day_of day)) × HoldsFactors factors.now × (fits next j ≡ true) × (j ≤ P (day_of day)) }
    ensures { holds.new ≡ land_all (without_line (day_of day.entry)) (next_cost next day.entry.flights.now j) j (capacity (day_of day.entry) j) holds.old }
{
    for _ in 0..of_period(day.capacities, j) {
        let Some(i) = first_waiting(next, factors, day, holds, j) else {
            return;
        };
        holds[i] = (j - day.due_of(i)) as u32;
    }
}

// Every flight at the closing period.
fn start_row(day: ValidDay, holds: &mut [u32])
    requires { length holds.old ≡ N (day_of day) }
    ensures { holds.new ≡ row (N (day_of day.entry)) (at_closing (day_of day.entry)) }
{
    for (i, hold) in holds.iter_mut().enumerate() {
        *hold = (day.capacities.len() + 1 - day.due_of(i)) as u32;
    }
}

// The row after the periods 1 to stop.
pub fn plan_to(next: NextCost, day: ValidDay, holds: &mut [u32], stop: usize)
    requires { (length holds.old ≡ N (day_of day)) × (fits next (P (day_of day)) ≡ true) × (stop ≤ P (day_of day)) }
    ensures { holds.new ≡ row_to (without_line (day_of day.entry)) (next_cost next day.entry.flights.now) stop }
{
    let factors = factor_table();
    start_row(day, holds);
    for j in 1..=stop {
        land_period(next, &factors, day, holds, j);
    }
}

// What the quick plan refuses.
#[tactic(auto, unfolding(day::specs::Plan::jump_or_limit))]
fn has_jump_or_limit(f: Flight) -> bool
    ensures { result ≡ jump_or_limit f }
{
    0 < f.jump || f.limit != MISSING
}

// The table place of the first flight with a jump or a limit.
pub fn first_jump_or_limit(flights: &[u32]) -> Option<usize>
    ensures { result ≡ place_if (flight_count flights.now) (first_jump_or_limit flights.now) }
{
    (0..flight_count(flights)).find(|&place| has_jump_or_limit(flight_at(flights, place)))
}

// What every quick plan tests first; the valid day. Refusals, in this order: 6, a bad day; 7, a row that has not one entry for each flight; 8,
// the first flight with a jump or a limit.
pub fn check_quick<'a>(day: LentDay<'a>, holds: &[u32]) -> Result<ValidDay<'a>, Refusal>
    ensures { MatchResult result (λ valid. (day_of valid ≡ lent_day day.entry) × (quick_check (lent_day day.entry) holds.now ≡ Ok tt)) (λ refusal. quick_check (lent_day day.entry) holds.now ≡ Err refusal) }
{
    let day = day.check()?;
    let needed = day.flight_count();
    if holds.len() != needed {
        return Err(Refusal::BadLength { needed });
    }
    match first_jump_or_limit(day.flights) {
        Some(place) => Err(Refusal::JumpOrLimit { place }),
        None => Ok(day),
    }
}

// Fills the hold row with the quick plan and answers its total; or refuses, and leaves the row as it was. The plan leaves more flights than
// the closing period takes exactly where a stretch is short: then 9 is answered before anything is stored.
pub fn quick_plan(day: LentDay, holds: &mut [u32]) -> Result<usize, Refusal>
    ensures value { result ≡ (quick_plan (lent_day day.entry) holds.old).answer }
    ensures holds_after { holds.new ≡ (quick_plan (lent_day day.entry) holds.old).holds }
{
    let day = check_quick(day, holds)?;
    if let Some(Stretch { first, last }) = find_short(day) {
        return Err(Refusal::NoPlan { first, last });
    }
    plan_to(NextCost::Rate, day.open(), holds, day.capacities.len());
    Ok(total_of(day.flights, holds))
}
