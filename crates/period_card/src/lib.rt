// The period card: who is eligible in one period of the quick plan, as marks in two words, and how many are.
#![tactic(auto)]

ghost use Rattle.std.specs.Prelude.{◌≡◌, ◌^◌, ◌<◌, ◌≤◌, length};
ghost use Rattle.std.specs.Int.Bits.{bit_or};
ghost use Rattle.day.specs.Day.{N, P};
ghost use Rattle.day.specs.Checked.{lent_day, day_of};
ghost use Rattle.quick_plan.specs.Loop.{without_line, waiting};
ghost use Rattle.period_card.specs.PeriodCard.{marks, card, period_card};

use answers::Refusal;
use day::{FLIGHTS, LentDay, ValidDay};
use quick_plan::{NextCost, first_jump_or_limit, is_waiting, plan_to};

// A set of table places: the flight at place i is bit i mod 64 of word i/64.
#[derive(Clone, Copy)]
pub struct Marks {
    pub low: u64,
    pub high: u64,
}

// The card of a period: who is eligible in it, as marks in two words, and how many are.
#[derive(Clone, Copy)]
pub struct Card {
    pub low: u64,
    pub high: u64,
    pub size: u32,
}

// The word with bit i set.
fn mark(word: u64, i: usize) -> u64
    requires { i < 64 }
    ensures { result ≡ bit_or word (2 ^ i) }
{
    word | (1u64 << i)
}

// Who waits in period j.
fn marks_of(day: ValidDay, holds: &[u32], j: usize) -> Marks
    requires { length holds.now ≡ N (day_of day) }
    ensures { result ≡ marks (waiting (without_line (day_of day.entry)) holds.now j) (length holds.now) }
{
    let mut low: u64 = 0;
    let mut high: u64 = 0;
    for i in 0..holds.len() {
        if is_waiting(day.capacities, day.flights, holds, j, i) {
            if i < 64 {
                low = mark(low, i);
            } else {
                high = mark(high, i - 64);
            }
        }
    }
    Marks { low, high }
}

// The card of period j, with a row to plan the periods before it in.
fn card_in(day: ValidDay, row: &mut [u32], j: usize) -> Card
    requires { (length row.old ≡ N (day_of day)) × (1 ≤ j) × (j ≤ P (day_of day)) }
    ensures { result ≡ card (day_of day.entry) j }
{
    plan_to(NextCost::Rate, day, row, j - 1);
    let set = marks_of(day, row, j);
    let size = set.low.count_ones() + set.high.count_ones();
    Card {
        low: set.low,
        high: set.high,
        size,
    }
}

// The card of a period, whatever the closing period takes. Refusals, in this order: 6, a bad day; 8, the first flight with a jump or a limit;
// 11, no such period.
pub fn period_card(day: LentDay, period: u32) -> Result<Card, Refusal>
    ensures { result ≡ period_card (lent_day day.entry) period }
{
    let day = day.check()?;
    if let Some(place) = first_jump_or_limit(day.flights) {
        return Err(Refusal::JumpOrLimit { place });
    }
    let periods = day.capacities.len();
    let j = period as usize;
    if j == 0 || periods < j {
        return Err(Refusal::NoSuchPeriod { periods });
    }
    let mut row = [0; FLIGHTS];
    Ok(card_in(day.open(), &mut row[..day.flight_count()], j))
}
