// The full plan of a day: a cheapest legal plan, and prices that show it and say what one more landing would save; or the short stretch that
// leaves none.
#![tactic(auto)]

ghost use Rattle.day.specs.Checked.{lent_day, open_day};
ghost use Rattle.full_plan.specs.FullPlan.{FullPlan};
ghost use Rattle.full_plan.specs.Inserted.{CanPlan, Made};

use answers::Refusal;
use day::{LentDay, ValidDay};
use insertion::insert_all;
use stretch::{Stretch, find_short};

// Plans a day that has a legal plan, and answers the total. A closing line then changes no cheapest plan and no price, and the closing
// period's price is 0; so the insertion does not know its number.
fn plan_day(day: ValidDay, holds: &mut [u32], prices: &mut [u32]) -> usize
    requires { CanPlan (open_day day) holds.old prices.old }
    ensures { Made (open_day day.entry) result holds.new prices.old prices.new }
{
    let (front, behind) = prices.split_at_mut(day.capacities.len());
    behind.fill(0);
    insert_all(day, holds, front)
}

// For a day and rows of any content and length. Nothing is stored unless a plan is found.
pub fn full_plan(day: LentDay, holds: &mut [u32], prices: &mut [u32]) -> Result<usize, Refusal>
    ensures { FullPlan (lent_day day.entry) result holds.old prices.old holds.new prices.new }
{
    let day = day.check()?;
    let n = day.flight_count();
    if holds.len() != n {
        return Err(Refusal::BadLength { needed: n });
    }
    let priced = day.counted();
    if prices.len() != priced {
        return Err(Refusal::BadLength { needed: priced });
    }
    if let Some(Stretch { first, last }) = find_short(day) {
        return Err(Refusal::NoPlan { first, last });
    }
    Ok(plan_day(day.open(), holds, prices))
}
