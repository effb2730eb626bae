// The search for the cheapest chain of moves that makes room for a new flight: periods are reached in the order of their distances.
#![tactic(auto)]

ghost use Rattle.std.specs.Prelude.{◌≡◌, ◌+◌, ◌<◌, length};
ghost use Rattle.assignment.specs.Rows.{el};
ghost use Rattle.day.specs.Day.{period_row};
ghost use Rattle.day.specs.Checked.{open_day};
ghost use Rattle.path.specs.Path.{away, CanList, Filled, Removed, CanNear, NearestIn, CanLevel, Levelled, NextLevel, Nearer, FirstFrom, CanOffer, Offers, CanExpandSome, ExpandedAll, CanSearchSome, SearchedAll};

use day::{FLIGHTS, Flight, PERIOD_ROW, ValidDay, flight_at, hold_cost, latest_of, of_period};

// A distance that no chain of moves has.
pub const FAR: usize = 4611686018427387904;

// A row of chains: an entry for each period, then one for each place.
pub const CHAIN_ROW: usize = PERIOD_ROW + FLIGHTS;

// Where an offer starts: the place of the flight that makes it, how far the period is in which it lands, and what it pays there.
#[derive(Clone, Copy)]
struct Origin {
    who: usize,
    from: usize,
    base: usize,
}

// Lists the open periods from first on, rising, and behind them the target; the target's place.
fn list_periods(capacities: &[u32], list: &mut [u8], first: usize, target: usize) -> usize
    requires { CanList list.old first target }
    ensures { Filled capacities.now list.new first target result }
{
    let mut left = 0;
    for k in first..target {
        if 0 < of_period(capacities, k) {
            list[left] = k as u8;
            left += 1;
        }
    }
    list[left] = target as u8;
    left
}

// The place of the nearest period of the list, whose last is the target. None is nearer than `level`, so that the first which is as near
// ends the search.
fn nearest(dist: &[usize], list: &[u8], left: usize, target: usize, level: usize) -> usize
    requires { CanNear dist.now list.now left target level }
    ensures { NearestIn dist.now list.now left result }
{
    let mut best = dist[target];
    let mut at = left;
    for (z, k) in list[..left].iter().enumerate() {
        let away = dist[*k as usize];
        if away < best {
            if away <= level {
                return z;
            }
            best = away;
            at = z;
        }
    }
    at
}

// Takes the period at place `at` out of a list whose last place is `left`.
fn take_out(list: &mut [u8], at: usize, left: usize)
    requires { (length list.old ≡ period_row) × (at < left) × (left < period_row) }
    ensures { Removed list.old list.new at left }
{
    // Kept: entry by entry, since with copy_within the full plan takes 3 % longer.
    for z in at..left {
        list[z] = list[z + 1];
    }
}

// Moves the periods of the list that are as near as the one at place `at`, from there on, to the queue, which has `queued` periods so far;
// where the target then stands in the list.
fn take_level(
    dist: &[usize],
    list: &mut [u8],
    queue: &mut [u8],
    at: usize,
    left: usize,
    target: usize,
    queued: usize,
) -> usize
    requires { CanLevel dist.now list.old queue.old at left target queued }
    ensures { (result < left) × Levelled dist.now list.old list.new queue.old queue.new left result queued (away dist.now (el list.old at)) }
{
    let level = dist[list[at] as usize];
    let mut kept = at;
    let mut end = queued;
    for z in at..left {
        let k = list[z];
        if dist[k as usize] == level {
            queue[end] = k;
            end += 1;
        } else {
            list[kept] = k;
            kept += 1;
        }
    }
    list[kept] = target as u8;
    kept
}

// Moves the nearest period of the list to the queue, unless the target is as near; where the target then stands. Where it is as near as
// `level`, what was reached last, others often are too, and all of them are moved at once.
fn take_nearest(
    dist: &[usize],
    list: &mut [u8],
    queue: &mut [u8],
    left: usize,
    target: usize,
    level: usize,
    queued: usize,
) -> usize
    requires can_near { CanNear dist.now list.old left target level }
    requires queue_len { (length queue.old ≡ period_row) × (queued + left < period_row) }
    ensures { NextLevel dist.now list.old list.new queue.old queue.new left result queued target }
{
    let at = nearest(dist, list, left, target, level);
    if left <= at {
        return left;
    }
    let k = list[at];
    if dist[k as usize] <= level {
        return take_level(dist, list, queue, at, left, target, queued);
    }
    queue[queued] = k;
    take_out(list, at, left);
    left - 1
}

// Period k comes to the distance `away` by way of `who`, if that is nearer.
fn bring_nearer(dist: &mut [usize], via: &mut [usize], k: usize, away: usize, who: usize)
    requires { (k < length dist.old) × (k < length via.old) × (k < period_row) }
    ensures { Nearer dist.old dist.new via.old via.new k away who }
{
    if away < dist[k] {
        dist[k] = away;
        via[k] = who;
    }
}

// The first place of the list whose period is not before `due`; at the latest the last, where the target stands.
fn first_from(list: &[u8], left: usize, due: usize) -> usize
    requires { (length list.now ≡ period_row) × (left < period_row) }
    ensures { FirstFrom list.now left due result }
{
    list[..left]
        .iter()
        .position(|k| due <= *k as usize)
        .unwrap_or(left)
}

// A flight offers the periods of its window that stand in the list, up to the target, which stands last: from the distance of its origin to
// what it pays there more than at home. Costs rise with the hold, so that behind the first offer that is no nearer than the target none is.
// The target has no price.
fn offer(
    f: Flight,
    o: Origin,
    prices: &[u32],
    list: &[u8],
    dist: &mut [usize],
    via: &mut [usize],
    left: usize,
    target: usize,
)
    requires { CanOffer f o prices.now list.now dist.old via.old left target }
    ensures { Offers f o prices.now list.now dist.old dist.new via.old via.new left target }
{
    let due = f.due as usize;
    let last = latest_of(target - 1, f);
    let goal = dist[target] + o.base;
    // Kept: by place, since over a slice of the list the full plan takes 7 % longer.
    for z in first_from(list, left, due)..left {
        let at = list[z] as usize;
        if last < at {
            return;
        }
        let reach = o.from + hold_cost(f, at - due);
        if goal <= reach {
            return;
        }
        let price = prices[at - 1] as usize;
        bring_nearer(dist, via, at, reach + price - o.base, o.who);
    }
    if target <= last {
        let reach = o.from + hold_cost(f, target - due);
        bring_nearer(dist, via, target, reach - o.base, o.who);
    }
}

// The flights that land in period k offer the periods of their windows.
fn expand(
    flights: &[u32],
    places: &[u32],
    links: &[usize],
    prices: &[u32],
    list: &[u8],
    dist: &mut [usize],
    via: &mut [usize],
    left: usize,
    target: usize,
    k: usize,
)
    requires { CanExpandSome flights.now places.now links.now prices.now list.now dist.old via.old left target k }
    ensures { ExpandedAll flights.now places.now links.now prices.now list.now dist.old dist.new via.old via.new left target k }
{
    let from = dist[k];
    let price = of_period(prices, k);
    let mut next = links[k];
    // Kept: a while, since the chain is walked by its links and not by an index.
    while 0 < next {
        let who = next - 1;
        next = links[PERIOD_ROW + who];
        let f = flight_at(flights, places[who] as usize);
        let base = hold_cost(f, k - f.due as usize) + price;
        let o = Origin { who, from, base };
        offer(f, o, prices, list, dist, via, left, target);
    }
}

// The cheapest chain of moves that makes room for the flight at place n, due by the target: the flight offers, and then the nearest periods
// are reached again and again, until the target is as near as they are. What is equally near leaves the list, to which flights offer, at once
// and is reached from the queue. All is far at the start; `via` names the new flight by its place.
pub fn find_path(
    day: ValidDay,
    places: &[u32],
    links: &[usize],
    prices: &[u32],
    dist: &mut [usize],
    via: &mut [usize],
    n: usize,
    target: usize,
)
    requires { CanSearchSome (open_day day) places.now links.now prices.now dist.old via.old n target }
    ensures { SearchedAll (open_day day.entry) places.now links.now prices.now dist.old dist.new via.old via.new n target }
{
    let mut list = [0u8; PERIOD_ROW];
    let mut queue = [0u8; PERIOD_ROW];
    let flights = day.flights;
    let f = flight_at(flights, places[n] as usize);
    let all = list_periods(day.capacities, &mut list, f.due as usize, target);
    let o = Origin {
        who: n,
        from: 0,
        base: 0,
    };
    offer(f, o, prices, &list, dist, via, all, target);
    let mut left = take_nearest(dist, &mut list, &mut queue, all, target, 0, 0);
    let mut t = 0;
    // Kept: a while, since the queue grows while it is read: no range has its end.
    while t < all - left {
        let k = queue[t] as usize;
        t += 1;
        expand(
            flights, places, links, prices, &list, dist, via, left, target, k,
        );
        let level = dist[k];
        if dist[target] <= level {
            return;
        }
        if t == all - left {
            left = take_nearest(dist, &mut list, &mut queue, left, target, level, t);
        }
    }
}
