// The growing plan: the quick plan of a day on which each further period of hold costs more than the one before.
#![tactic(auto)]

ghost use Rattle.std.specs.Prelude.{◌≡◌};
ghost use Rattle.day.specs.Checked.{lent_day};
ghost use Rattle.growth.specs.Growth.{growth_fits};
ghost use Rattle.growth_plan.specs.Growing.{growing_total, growth_plan};
ghost use Rattle.growth_plan.specs.Loop.{CanSum};

use answers::Refusal;
use day::{LentDay, rate_of};
use growth::{GROWTH, GROWTH_PERIODS, factor_table, growth_cost};
use quick_plan::{NextCost, check_quick, plan_to};
use stretch::{Stretch, find_short};

// What a row of holds costs, in millionths. Kept: beside the total of legality, since a function of the cost would have to ask of it what
// bounds the sum, which is longer than both loops.
fn total_in_millionths(growth: usize, flights: &[u32], holds: &[u32]) -> usize
    requires { CanSum growth flights.now holds.now }
    ensures { result ≡ growing_total growth flights.now holds.now }
{
    let factors = factor_table();
    let mut sum = 0;
    for (i, hold) in holds.iter().enumerate() {
        sum += growth_cost(&factors, growth, rate_of(flights, i), *hold as usize);
    }
    sum
}

// The growth and the number of periods are within their ranges.
#[tactic(auto, unfolding(growth::specs::Growth::growth_fits))]
fn growth_fits(growth: usize, periods: usize) -> bool
    ensures { result ≡ growth_fits growth periods }
{
    growth <= GROWTH && periods <= GROWTH_PERIODS
}

// Fills the hold row with the growing plan for a growth in tenths, and answers its total in millionths. Refusals, in this order: 6, 7 and 8
// as the quick plan; 14, a growth or a number of periods out of range; 9, more flights left than the closing period takes. They leave the
// row as it was.
pub fn growth_plan(day: LentDay, growth: u32, holds: &mut [u32]) -> Result<usize, Refusal>
    ensures value { result ≡ (growth_plan growth (lent_day day.entry) holds.old).answer }
    ensures holds_after { holds.new ≡ (growth_plan growth (lent_day day.entry) holds.old).holds }
{
    let day = check_quick(day, holds)?;
    let growth = growth as usize;
    if !growth_fits(growth, day.capacities.len()) {
        return Err(Refusal::BadGrowth);
    }
    if let Some(Stretch { first, last }) = find_short(day) {
        return Err(Refusal::NoPlan { first, last });
    }
    plan_to(
        NextCost::Growing { growth },
        day.open(),
        holds,
        day.capacities.len(),
    );
    Ok(total_in_millionths(growth, day.flights, holds))
}
