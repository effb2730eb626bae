// The day in two lent rows and its closing number: its numbers, its check (refusal 6), and what a hold costs and where it lands.
#![tactic(auto)]

ghost use Rattle.std.specs.Prelude.{◌≡◌, true, false, ◌&&◌, ◌+◌, ◌*◌, ◌/◌, ◌%◌, ◌^◌, ◌<◌, ◌≤◌, ◌++◌, length, take, drop, MatchResult};
ghost use Rattle.day.specs.Day.{lent, unlimited, most_periods, most_flights, column, number_of, due_of, rate_of, limit_of, width, flight_at, flight_count, of_period, takes_of, counted_of, hold_cost, land_of, latest_of, last_of, all, inside, flight_fits, capacities_fit, in_range, is_new, valid, P, N, takes, counted, cost};
ghost use Rattle.day.specs.Checked.{lent_day, day_of, open_day};
ghost use Rattle.day.specs.Flights.{with_flight};
ghost use Rattle.day.specs.Chains.{chains, Linked, Passed};

use answers::Refusal;

mod valid_day;

pub use valid_day::{LentDay, ValidDay};

// The most periods and the most flights of a day.
pub const PERIODS: usize = 96;

pub const FLIGHTS: usize = 128;

// How many numbers a flight takes in its row, and the most numbers of a row of flights.
// Kept: a row of numbers and no slice of flights, since the C interface lends the days of its callers so.
pub const WIDTH: usize = 7;

pub const FLIGHT_ROW: usize = FLIGHTS * WIDTH;

// A row that is read at the period itself, from 0 to the closing period.
pub const PERIOD_ROW: usize = PERIODS + 2;

// A limit that is missing. Kept: a number and no Option, since the rows that C lends have it so.
pub const MISSING: u32 = 255;

// The closing number of a day whose closing period takes everyone: more than the flights of a day. Kept: a number and no Option, since C
// hands it over so.
pub const UNLIMITED: u32 = 256;

// A flight's numbers, in sheet order.
#[derive(Clone, Copy)]
pub struct Flight {
    pub number: u32,
    pub due: u32,
    pub rate: u32,
    pub after: u32,
    pub jump: u32,
    pub limit: u32,
    pub late: u32,
}

// How many flights the row has.
#[tactic(auto, unfolding(crate::specs::Day::flight_count))]
pub fn flight_count(flights: &[u32]) -> usize
    ensures { result ≡ flight_count flights.now }
{
    flights.len() / WIDTH
}

// Column j of the flight at table place i.
fn field(flights: &[u32], i: usize, j: usize) -> usize
    requires { (j < width) × ((i + 1) * width ≤ length flights.now) }
    ensures { (result ≡ column j flights.now i) × (result < 2 ^ 32) }
{
    flights[i * WIDTH + j] as usize
}

// One number of the flight at table place i, for whoever needs no other.
pub fn number_of(flights: &[u32], i: usize) -> usize
    requires { (i + 1) * width ≤ length flights.now }
    ensures { (result ≡ number_of flights.now i) × (result < 2 ^ 32) }
{
    field(flights, i, 0)
}

pub fn due_of(flights: &[u32], i: usize) -> usize
    requires { (i + 1) * width ≤ length flights.now }
    ensures { (result ≡ due_of flights.now i) × (result < 2 ^ 32) }
{
    field(flights, i, 1)
}

pub fn rate_of(flights: &[u32], i: usize) -> usize
    requires { (i + 1) * width ≤ length flights.now }
    ensures { (result ≡ rate_of flights.now i) × (result < 2 ^ 32) }
{
    field(flights, i, 2)
}

pub fn limit_of(flights: &[u32], i: usize) -> usize
    requires { (i + 1) * width ≤ length flights.now }
    ensures { (result ≡ limit_of flights.now i) × (result < 2 ^ 32) }
{
    field(flights, i, 5)
}

// The flight at table place i.
#[tactic(auto, unfolding(crate::specs::Day::flight_at))]
pub fn flight_at(flights: &[u32], i: usize) -> Flight
    requires { (i + 1) * width ≤ length flights.now }
    ensures { result ≡ flight_at flights.now i }
{
    let at = i * WIDTH;
    Flight {
        number: flights[at],
        due: flights[at + 1],
        rate: flights[at + 2],
        after: flights[at + 3],
        jump: flights[at + 4],
        limit: flights[at + 5],
        late: flights[at + 6],
    }
}

// Stores a flight at table place i.
pub fn put_flight(flights: &mut [u32], i: usize, f: Flight)
    requires { (i + 1) * width ≤ length flights.old }
    ensures { flights.new ≡ with_flight flights.old i f }
{
    let at = i * WIDTH;
    flights[at] = f.number;
    flights[at + 1] = f.due;
    flights[at + 2] = f.rate;
    flights[at + 3] = f.after;
    flights[at + 4] = f.jump;
    flights[at + 5] = f.limit;
    flights[at + 6] = f.late;
}

// What a row of an entry for each period has for period k: 0 for a period that it has not.
pub fn of_period(row: &[u32], k: usize) -> usize
    ensures { (result ≡ of_period row.now k) × (result < 2 ^ 32) }
{
    if k == 0 {
        return 0;
    }
    row.get(k - 1).map_or(0, |entry| *entry as usize)
}

// How many flights period k takes, the closing period included.
#[tactic(auto, unfolding(crate::specs::Day::takes_of))]
pub fn capacity_of(capacities: &[u32], closing: u32, k: usize) -> usize
    requires { length capacities.now ≤ most_periods }
    ensures { result ≡ takes_of capacities.now closing k }
{
    if k <= capacities.len() {
        return of_period(capacities, k);
    }
    if k == capacities.len() + 1 {
        return closing as usize;
    }
    0
}

// The last period whose landings are counted against a number, on a day of so many periods: the closing period, if there is a closing
// line. A price row has an entry for each of them.
#[tactic(auto, unfolding(crate::specs::Day::counted_of))]
pub fn counted_of(periods: usize, closing: u32) -> usize
    requires { periods ≤ most_periods }
    ensures { result ≡ counted_of periods closing }
{
    if closing < UNLIMITED {
        return periods + 1;
    }
    periods
}

// The period in which the flight at table place i lands.
pub fn land_of(flights: &[u32], holds: &[u32], i: usize) -> usize
    requires { (i < length holds.now) × ((i + 1) * width ≤ length flights.now) }
    ensures { (result ≡ land_of flights.now holds.now i) × (result < 2 ^ 33) }
{
    due_of(flights, i) + holds[i] as usize
}

// What a hold costs a flight: the jump counts the delay that it brings along. Its numbers and the hold are of 32 bits, so that the sum
// fits.
#[tactic(auto, unfolding(crate::specs::Day::hold_cost))]
pub fn hold_cost(f: Flight, hold: usize) -> usize
    requires { hold < 2 ^ 32 }
    ensures { result ≡ hold_cost f hold }
{
    let run = f.rate as usize * hold;
    if f.late as usize + hold > f.after as usize {
        return run + f.jump as usize;
    }
    run
}

// What a hold costs the flight at table place i.
pub fn cost_of(flights: &[u32], i: usize, hold: usize) -> usize
    requires { ((i + 1) * width ≤ length flights.now) × (hold < 2 ^ 32) }
    ensures { result ≡ hold_cost (flight_at flights.now i) hold }
{
    hold_cost(flight_at(flights, i), hold)
}

// The last period that a flight's limit allows, on a day of so many periods.
#[tactic(auto, unfolding(crate::specs::Day::latest_of))]
pub fn latest_of(periods: usize, f: Flight) -> usize
    requires { periods ≤ most_periods }
    ensures { result ≡ latest_of periods f }
{
    if f.limit == MISSING {
        return periods + 1;
    }
    f.due as usize + f.limit as usize
}

// The last period in which a flight may land, on a day of so many periods: the closing period where its limit is missing or reaches further.
#[tactic(auto, unfolding(crate::specs::Day::last_of))]
pub fn last_of(periods: usize, f: Flight) -> usize
    requires { periods ≤ most_periods }
    ensures { result ≡ last_of periods f }
{
    let closing = periods + 1;
    latest_of(periods, f).min(closing)
}

// A number from low to high.
pub fn is_inside(low: usize, high: usize, x: usize) -> bool
    ensures { result ≡ inside low high x }
{
    (low..=high).contains(&x)
}

// A flight's numbers are within the table's ranges, on a day of so many periods.
#[tactic(auto, unfolding(crate::specs::Day::flight_fits))]
pub fn flight_fits(periods: usize, f: Flight) -> bool
    ensures { result ≡ flight_fits periods f }
{
    is_inside(1, 9999, f.number as usize)
        && is_inside(1, periods, f.due as usize)
        && is_inside(1, 10000, f.rate as usize)
        && f.after <= 96
        && f.jump <= 1000000
        && (f.limit <= 96 || f.limit == MISSING)
        && f.late <= 255
}

// A row of capacities is within the table's range.
pub fn capacities_fit(capacities: &[u32]) -> bool
    ensures { result ≡ capacities_fit capacities.now }
{
    capacities.iter().all(|capacity| *capacity <= 255)
}

fn flights_in_range(periods: usize, flights: &[u32], n: usize) -> bool
    requires { n * width ≤ length flights.now }
    ensures { result ≡ all n (in_range periods flights.now) }
{
    (0..n).all(|i| flight_fits(periods, flight_at(flights, i)))
}

// A repeated number is found in one pass: the flights passed stand in chains by the residue of their number, and a flight is compared
// with those of its own chain only. Of the numbers to 9,999 at most forty have the same residue. More chains would be shorter, but their
// row is cleared for every day, also for one of ten flights.
const CHAINS: usize = 256;

// The chain in which the flight at table place i stands.
fn chain_of(flights: &[u32], i: usize) -> usize
    requires { (i + 1) * width ≤ length flights.now }
    ensures { (result ≡ number_of flights.now i % chains) × (result < chains) }
{
    number_of(flights, i) % CHAINS
}

// No flight above the one at table place i has its number. The row `nearest` has for each chain its flight nearest above place i,
// the row `above` for each flight the next above it in its chain. An entry is the table place of a flight plus one, or 0 at the chain's
// end; there are at most 128 flights, so that it fits a byte.
fn is_new(flights: &[u32], nearest: &[u8], above: &[u8], i: usize) -> bool
    requires { ((i + 1) * width ≤ length flights.now) × Linked flights.now nearest.now above.now i }
    ensures { result ≡ is_new flights.now i }
{
    let number = number_of(flights, i);
    let chain = chain_of(flights, i);
    // Kept: a while, since the chain is walked by its links and not by an index.
    let mut entry = nearest[chain] as usize;
    while entry > 0 {
        let at = entry - 1;
        if number_of(flights, at) == number {
            return false;
        }
        entry = above[at] as usize;
    }
    true
}

// Each of the n flights has a number of its own, with rows in which those passed are chained on the way.
fn numbers_differ_in(flights: &[u32], n: usize, nearest: &mut [u8], above: &mut [u8]) -> bool
    requires { Passed flights.now n nearest.old above.old 0 }
    ensures { result ≡ all n (is_new flights.now) }
{
    for i in 0..n {
        if !is_new(flights, nearest, above, i) {
            return false;
        }
        let chain = chain_of(flights, i);
        above[i] = nearest[chain];
        nearest[chain] = i as u8 + 1;
    }
    true
}

fn numbers_differ(flights: &[u32], n: usize) -> bool
    requires { (n * width ≤ length flights.now) × (n ≤ most_flights) }
    ensures { result ≡ all n (is_new flights.now) }
{
    let mut nearest = [0u8; CHAINS];
    let mut above = [0u8; FLIGHTS];
    numbers_differ_in(flights, n, &mut nearest, &mut above)
}

// The day check: refusal 6 is given where it says no. Kept: two rows and a number, since README names it for what it says of any.
#[tactic(auto, unfolding(crate::specs::Day::flight_count, crate::specs::Day::valid))]
pub fn is_valid(capacities: &[u32], flights: &[u32], closing: u32) -> bool
    ensures { result ≡ valid (lent capacities.entry flights.entry closing) }
{
    let n = flight_count(flights);
    is_inside(1, PERIODS, capacities.len())
        && flights.len() == n * WIDTH
        && n <= FLIGHTS
        && closing <= UNLIMITED
        && capacities_fit(capacities)
        && flights_in_range(capacities.len(), flights, n)
        && numbers_differ(flights, n)
}

impl<'a> LentDay<'a> {
    // The day check: refusal 6 is given where it says no.
    pub fn check(self) -> Result<ValidDay<'a>, Refusal>
        ensures { MatchResult result (λ day. day_of day ≡ lent_day self.entry) (λ refusal. (refusal ≡ Refusal.BadDay) × (valid (lent_day self.entry) ≡ false)) }
    {
        let LentDay {
            capacities,
            flights,
            closing,
        } = self;
        if !is_valid(capacities, flights, closing) {
            return Err(Refusal::BadDay);
        }
        Ok(ValidDay {
            capacities,
            flights,
            closing,
        })
    }
}

impl<'a> ValidDay<'a> {
    pub fn flight_count(self) -> usize
        ensures { (result ≡ N (day_of self.entry)) × (result ≤ most_flights) }
    {
        flight_count(self.flights)
    }

    // The flight at table place i.
    pub fn flight_at(self, i: usize) -> Flight
        requires { i < N (day_of self) }
        ensures { result ≡ flight_at self.entry.flights.now i }
    {
        flight_at(self.flights, i)
    }

    // One number of it, for whoever needs no other.
    pub fn number_of(self, i: usize) -> usize
        requires { i < N (day_of self) }
        ensures { (result ≡ number_of self.entry.flights.now i) × (result ≤ 9999) }
    {
        number_of(self.flights, i)
    }

    pub fn due_of(self, i: usize) -> usize
        requires { i < N (day_of self) }
        ensures { (result ≡ due_of self.entry.flights.now i) × (result ≤ P (day_of self.entry)) }
    {
        due_of(self.flights, i)
    }

    pub fn rate_of(self, i: usize) -> usize
        requires { i < N (day_of self) }
        ensures { (result ≡ rate_of self.entry.flights.now i) × (result ≤ 10000) }
    {
        rate_of(self.flights, i)
    }

    // The period in which it lands.
    pub fn land_of(self, holds: &[u32], i: usize) -> usize
        requires { (i < length holds.now) × (i < N (day_of self)) }
        ensures { (result ≡ land_of self.entry.flights.now holds.now i) × (result < 2 ^ 33) }
    {
        land_of(self.flights, holds, i)
    }

    // What a hold costs it.
    pub fn cost_of(self, i: usize, hold: usize) -> usize
        requires { (i < N (day_of self)) × (hold < 2 ^ 32) }
        ensures { result ≡ cost (day_of self.entry) i hold }
    {
        cost_of(self.flights, i, hold)
    }

    // How many flights period k takes, the closing period included.
    pub fn capacity_of(self, k: usize) -> usize
        ensures { result ≡ takes (day_of self.entry) k }
    {
        capacity_of(self.capacities, self.closing, k)
    }

    // The last period whose landings are counted against a number.
    pub fn counted(self) -> usize
        ensures { result ≡ counted (day_of self.entry) }
    {
        counted_of(self.capacities.len(), self.closing)
    }

    // The same day without its closing line: who plans without the number is handed this.
    pub fn open(self) -> ValidDay<'a>
        ensures { day_of result ≡ open_day self.entry }
    {
        ValidDay {
            capacities: self.capacities,
            flights: self.flights,
            closing: UNLIMITED,
        }
    }
}
