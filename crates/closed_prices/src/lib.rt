// The prices of the closed periods, those of capacity 0, for a plan whose other prices are known: a search leaves such periods out.
#![tactic(auto)]

ghost use Rattle.std.specs.Prelude.{◌<◌};
ghost use Rattle.day.specs.Day.{lent, unlimited, flight_count};
ghost use Rattle.closed_prices.specs.ClosedPrices.{CanPay, Shortfall, LeastPrice, CanPrice, Priced};

use day::{flight_at, flight_count, hold_cost, latest_of, of_period};

// How much the price of period k must be for the flight at table place i, that it gains nothing by landing there. The day has so many periods.
fn shortfall(
    periods: usize,
    flights: &[u32],
    holds: &[u32],
    prices: &[u32],
    i: usize,
    k: usize,
) -> usize
    requires can_pay { CanPay periods flights.now holds.now prices.now k }
    requires i_bound { i < flight_count flights.now }
    ensures { Shortfall periods flights.now holds.now prices.now i k result }
{
    let f = flight_at(flights, i);
    let due = f.due as usize;
    if k < due || latest_of(periods, f) < k {
        return 0;
    }
    let hold = holds[i] as usize;
    let pays = hold_cost(f, hold) + of_period(prices, due + hold);
    pays.saturating_sub(hold_cost(f, k - due))
}

// The least price of period k that keeps every flight where it lands.
fn least_price(periods: usize, flights: &[u32], holds: &[u32], prices: &[u32], k: usize) -> usize
    requires { CanPay periods flights.now holds.now prices.now k }
    ensures { LeastPrice periods flights.now holds.now prices.now k result }
{
    let mut price = 0;
    for i in 0..flight_count(flights) {
        price = price.max(shortfall(periods, flights, holds, prices, i, k));
    }
    price
}

// Gives each closed period the least price that keeps every flight where it lands. Nobody lands in a closed period, so that no price that
// is read here is stored here. Kept: two rows, since it asks less than a valid day, and docs/FULL-PLAN.md names it.
pub fn price_closed(capacities: &[u32], flights: &[u32], holds: &[u32], prices: &mut [u32])
    requires { CanPrice (lent capacities flights unlimited) holds.now prices.old }
    ensures { Priced (lent capacities.entry flights.entry unlimited) holds.now prices.old prices.new }
{
    let periods = capacities.len();
    for (at, capacity) in capacities.iter().enumerate() {
        if *capacity == 0 {
            prices[at] = least_price(periods, flights, holds, prices, at + 1) as u32;
        }
    }
}
