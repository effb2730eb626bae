// The full plan's insertion: flight after flight, due falling, takes the cheapest chain of moves to the first period that has room.
// The lent rows are the plan: the hold row has the holds of the flights that are placed, the price row the prices. A row of places has the
// flights: those that are placed stand in its front, and a place keeps its period while flights change places. What is kept from one
// insertion to the next beside the plan is how many flights land in each period, the chains of their places, and the rows of the search,
// in which all is far again after each.
// The day is planned without a closing line, so that the closing period always has room; the full plan's proof shows that this is enough.
#![tactic(auto)]

ghost use Rattle.std.specs.Prelude.{◌≡◌, ◌+◌, ◌-◌, ◌*◌, ◌<◌, ◌≤◌, length, set};
ghost use Rattle.day.specs.Day.{most_flights, period_row, width, N, due_of};
ghost use Rattle.day.specs.Checked.{open_day};
ghost use Rattle.assignment.specs.Rows.{el};
ghost use Rattle.insertion.specs.Insertion.{Added, CanFind, FirstRoom, CanWalk, Walked, CanRaise, Raised, CanForget, Forgotten, Placed, Kept, Inserted, CanInsert, Planned};

use closed_prices::price_closed;
use day::{FLIGHTS, PERIOD_ROW, UNLIMITED, ValidDay, capacity_of, due_of, land_of};
use due_order::order_flights;
use path::{CHAIN_ROW, FAR, find_path};

// Place n is the newest of those in period k: counts it, and puts it at the head of their chain.
fn add_place(loads: &mut [usize], links: &mut [usize], n: usize, k: usize)
    requires { (k < length loads.old) × (period_row + n < length links.old) × (k < period_row) × (n < most_flights) × (el loads.old k ≤ most_flights) }
    ensures { Added loads.old loads.new links.old links.new n k }
{
    loads[k] += 1;
    links[PERIOD_ROW + n] = links[k];
    links[k] = n + 1;
}

// The first period from `first` on that has room; the closing period, which takes everyone here, always has.
fn first_with_room(capacities: &[u32], loads: &[usize], first: usize) -> usize
    requires { CanFind capacities.now loads.now first }
    ensures { FirstRoom capacities.now loads.now first result }
{
    let closing = capacities.len() + 1;
    (first..closing)
        .find(|k| loads[*k] < capacity_of(capacities, UNLIMITED, *k))
        .unwrap_or(closing)
}

// Holds the flight at table place i until period k.
fn hold_until(flights: &[u32], holds: &mut [u32], i: usize, k: usize)
    requires { (i < length holds.old) × ((i + 1) * width ≤ length flights.now) × (due_of flights.now i ≤ k) × (i < most_flights) × (k < period_row) }
    ensures { holds.new ≡ set holds.old i (k - due_of flights.now i) }
{
    holds[i] = (k - due_of(flights, i)) as u32;
}

// From the target back along `via`: each flight moves on to the place behind it, and the new flight, which starts at place n in the target,
// changes places with it until it comes to one of its own. Each period was reached before the next on the way, so that it ends.
fn walk(
    flights: &[u32],
    places: &mut [u32],
    holds: &mut [u32],
    via: &[usize],
    n: usize,
    target: usize,
)
    requires { CanWalk flights.now places.old holds.old via.now n target }
    ensures { Walked flights.now places.old places.new holds.old holds.new via.now n target }
{
    let mut at = target;
    let mut place = n;
    let mut from = via[at];
    while from != n {
        let i = places[from] as usize;
        let left = land_of(flights, holds, i);
        hold_until(flights, holds, i, at);
        places.swap(place, from);
        place = from;
        at = left;
        from = via[at];
    }
    hold_until(flights, holds, places[place] as usize, at);
}

// Raises each price by what its period is nearer than the target.
fn raise(prices: &mut [u32], dist: &[usize], first: usize, target: usize)
    requires { CanRaise prices.old dist.now first target }
    ensures { Raised prices.old prices.new dist.now target }
{
    let goal = dist[target];
    for k in first..target {
        prices[k - 1] += goal.saturating_sub(dist[k]) as u32;
    }
}

// All is far again: a search touches no period but those from first to the target.
fn forget(dist: &mut [usize], first: usize, target: usize)
    requires can { CanForget dist.old first target }
    requires from { first ≤ target }
    ensures { Forgotten dist.new }
{
    dist[first..=target].fill(FAR);
}

// Takes the flight at place n into the plan of those before it; what that adds to the cost.
fn insert(
    day: ValidDay,
    places: &mut [u32],
    holds: &mut [u32],
    prices: &mut [u32],
    loads: &mut [usize],
    links: &mut [usize],
    dist: &mut [usize],
    via: &mut [usize],
    n: usize,
) -> usize
    requires placed { Placed (open_day day) places.old holds.old prices.old n }
    requires kept { Kept (open_day day) places.old holds.old loads.old links.old dist.old via.old n }
    requires n_bound { n < N (open_day day) }
    ensures inserted { Inserted (open_day day.entry) places.old places.new holds.old holds.new prices.new n result }
    ensures kept { Kept (open_day day.entry) places.new holds.new loads.new links.new dist.new via.new (n + 1) }
{
    let first = day.due_of(places[n] as usize);
    let target = first_with_room(day.capacities, loads, first);
    find_path(day, places, links, prices, dist, via, n, target);
    let added = dist[target];
    walk(day.flights, places, holds, via, n, target);
    raise(prices, dist, first, target);
    forget(dist, first, target);
    add_place(loads, links, n, target);
    added
}

// Plans all flights of a day without its closing line, if no stretch is short then; the total. Whatever the two rows have, they are filled.
pub fn insert_all(day: ValidDay, holds: &mut [u32], prices: &mut [u32]) -> usize
    requires { CanInsert (open_day day) holds.old prices.old }
    ensures { Planned (open_day day.entry) holds.new prices.new result }
{
    let mut places = [0; FLIGHTS];
    order_flights(day.capacities.len(), day.flights, &mut places);
    prices.fill(0);
    let mut loads = [0; PERIOD_ROW];
    let mut links = [0; CHAIN_ROW];
    let mut dist = [FAR; PERIOD_ROW];
    let mut via = [0; PERIOD_ROW];
    let mut total = 0;
    for n in 0..holds.len() {
        let added = insert(
            day,
            &mut places,
            holds,
            prices,
            &mut loads,
            &mut links,
            &mut dist,
            &mut via,
            n,
        );
        total += added;
    }
    price_closed(day.capacities, day.flights, holds, prices);
    total
}
