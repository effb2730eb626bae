// The price check: whether prices show that a plan is cheapest.
#![tactic(auto)]

ghost use Rattle.std.specs.Prelude.{◌≡◌, true, false, ℕ, ◌*◌, ◌<◌, ◌≤◌, length};
ghost use Rattle.day.specs.Day.{N, counted, width, land_of, valid};
ghost use Rattle.day.specs.Checked.{lent_day, day_of};
ghost use Rattle.assignment.specs.Sum.{count};
ghost use Rattle.day.specs.Plan.{Legal, Cheapest, Accepted};
ghost use Rattle.answers.specs.Decides.{Decides};
ghost use Rattle.price_check.specs.Check.{Unsold, Best};

use day::{LentDay, ValidDay, hold_cost, land_of, last_of, of_period};
use legality::check_holds;

// How many flights land in period k.
fn landings_of(flights: &[u32], holds: &[u32], k: usize) -> usize
    requires { length holds.now * width ≤ length flights.now }
    ensures { result ≡ count (length holds.now) (land_of flights.now holds.now) k }
{
    let mut count = 0;
    for i in 0..holds.len() {
        if land_of(flights, holds, i) == k {
            count += 1;
        }
    }
    count
}

// Every period that is counted and isn't full has price 0.
fn are_unsold(day: ValidDay, holds: &[u32], prices: &[u32]) -> bool
    requires { length holds.now ≡ N (day_of day) }
    ensures { Decides result ((k : ℕ) → 1 ≤ k → k ≤ counted (day_of day.entry) → Unsold (day_of day.entry) holds.now prices.now k) }
{
    let last = day.counted();
    for k in 1..=last {
        if of_period(prices, k) != 0 && landings_of(day.flights, holds, k) < day.capacity_of(k) {
            return false;
        }
    }
    true
}

// The flight at table place i lands where its cost and the price together are least.
fn is_best(day: ValidDay, holds: &[u32], prices: &[u32], i: usize) -> bool
    requires legal_plan { Legal (day_of day) holds.now }
    requires i_bound { i < length holds.now }
    ensures { Decides result (Best (day_of day.entry) holds.now prices.now i) }
{
    let flight = day.flight_at(i);
    let due = flight.due as usize;
    let hold = holds[i] as usize;
    let here = hold_cost(flight, hold) + of_period(prices, due + hold);
    let last = last_of(day.capacities.len(), flight);
    for k in due..=last {
        if hold_cost(flight, k - due) + of_period(prices, k) < here {
            return false;
        }
    }
    true
}

fn are_best(day: ValidDay, holds: &[u32], prices: &[u32]) -> bool
    requires { Legal (day_of day) holds.now }
    ensures { Decides result ((i : ℕ) → i < length holds.now → Best (day_of day.entry) holds.now prices.now i) }
{
    for i in 0..holds.len() {
        if !is_best(day, holds, prices, i) {
            return false;
        }
    }
    true
}

// Yes exactly if the day is valid and the prices are accepted. A yes means that no legal plan is cheaper.
pub fn price_check(day: LentDay, holds: &[u32], prices: &[u32]) -> bool
    ensures exact { Decides result ((valid (lent_day day.entry) ≡ true) × Accepted (lent_day day.entry) holds.now prices.now) }
    ensures cheapest { result ≡ true → Cheapest (lent_day day.entry) holds.now }
{
    let Ok(day) = day.check() else {
        return false;
    };
    if check_holds(day, holds).is_err() {
        return false;
    }
    if prices.len() != day.counted() {
        return false;
    }
    if !are_unsold(day, holds, prices) {
        return false;
    }
    are_best(day, holds, prices)
}
