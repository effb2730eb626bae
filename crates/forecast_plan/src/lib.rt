// The forecast plan: flights get their holds one after another, each the hold of least expected cost given those before it, where the
// capacities of the day are known by forecasts with odds only.
#![tactic(auto)]

ghost use Rattle.std.specs.Prelude.{◌≡◌, true, cond, ◌+◌, ◌-◌, ◌*◌, ◌≤◌, ◌<◌, min, length, set, ltb};
ghost use Rattle.assignment.specs.Rows.{el};
ghost use Rattle.day.specs.Day.{N, most_periods, most_flights, period_row, of_period, last_of};
ghost use Rattle.day.specs.Checked.{lent_day, day_of};
ghost use Rattle.forecast_plan.specs.Forecast.{forecasts, forecast_at, left_over, waiting, first_room, forecast_holds, expected_total};
ghost use Rattle.forecast_plan.specs.Calls.{no_jumps, terms_fit, all_weights, forecasts_fit, rows_plan, forecast_plan};
ghost use Rattle.forecast_plan.specs.Loop.{Stays, Behind, Turn, Turns, Adding, airborne, Weighed, weighed, Low, Chooses, Ready, odds_of, Fit, Placed};

use answers::Refusal;
use day::{
    Flight, LentDay, PERIOD_ROW, UNLIMITED, ValidDay, capacities_fit, flight_at, flight_count,
    is_inside, last_of,
};

// The most forecasts, and a row that has a part for each.
const FORECASTS: usize = 8;

const WAITS: usize = FORECASTS * PERIOD_ROW;

// What their weights add up to.
const ALL_WEIGHTS: usize = 1000;

// What a call gives of the odds: the air factor, the forecasts' weights, and the forecasts in one row.
#[derive(Clone, Copy)]
struct Odds<'a> {
    factor: usize,
    weights: &'a [u32],
    rows: &'a [u32],
}

// A hold, and what it is expected to cost in thousandths.
#[derive(Clone, Copy)]
struct Chosen {
    hold: usize,
    cost: usize,
}

// Who waits in period j for a place under a forecast: those held to it, and those left over from the period before. The row `waits` has
// who waits before period `from`; it gets the periods to j too, each on the way back, and stays as it was behind j.
#[cycle(left_over_waiting)]
fn waiting(held: &[usize], forecast: &[u32], waits: &mut [usize], from: usize, j: usize) -> usize
    requires { Turn held.now forecast.now waits.old from × (1 ≤ j) × (j ≤ length forecast.now) }
    ensures value { result ≡ waiting (el held.now) forecast.now j }
    ensures turn { Turn held.now forecast.now waits.new (j + 1) }
    ensures stays { Stays waits.old waits.new j }
{
    if j < from {
        return waits[j];
    }
    let here = held[j] + left_over(held, forecast, waits, from, j - 1);
    waits[j] = here;
    here
}

// Who is left over from period j: those who wait there less its capacity. Nobody is before period 1.
#[cycle(left_over_waiting)]
fn left_over(held: &[usize], forecast: &[u32], waits: &mut [usize], from: usize, j: usize) -> usize
    requires { Turn held.now forecast.now waits.old from × (j ≤ length forecast.now) }
    ensures value { result ≡ left_over (waiting (el held.now) forecast.now j) (of_period forecast.now j) }
    ensures turn { Turn held.now forecast.now waits.new (j + 1) }
    ensures stays { Stays waits.old waits.new j }
{
    if j == 0 {
        return 0;
    }
    let here = waiting(held, forecast, waits, from, j);
    here.saturating_sub(forecast[j - 1] as usize)
}

// The capacities of forecast s.
fn forecast_at(rows: &[u32], periods: usize, s: usize) -> &[u32]
    requires { s * periods + periods ≤ length rows.now }
    ensures { result.now ≡ forecast_at periods rows.now s }
{
    let first = s * periods;
    &rows[first..first + periods]
}

// Fewer wait in period j than can land.
fn has_room(forecast: &[u32], waits: &[usize], j: usize) -> bool
    requires { (1 ≤ j) × (j ≤ length forecast.now) × (j < length waits.now) }
    ensures { result ≡ ltb (el waits.now j) (of_period forecast.now j) }
{
    waits[j] < forecast[j - 1] as usize
}

// The first period from q on in which fewer wait than can land, else the closing period: a flight held to q lands there.
fn first_room(forecast: &[u32], waits: &[usize], q: usize) -> usize
    requires { (1 ≤ q) × (q ≤ length forecast.now + 1) × (length forecast.now < length waits.now) }
    ensures { result ≡ first_room (el waits.now) forecast.now q }
{
    let closing = forecast.len() + 1;
    for k in q..closing {
        if has_room(forecast, waits, k) {
            return k;
        }
    }
    closing
}

// Brings the row of one forecast up to date after one flight more was held to period `from`. That flight waits with the others up to
// the period in which it lands; behind it nothing changes.
fn refresh_one(held: &[usize], forecast: &[u32], waits: &mut [usize], from: usize)
    requires { Turn held.now forecast.now waits.old from × Behind (el held.now) forecast.now (el waits.old) from × (1 ≤ from) × (from ≤ length forecast.now + 1) × (1 ≤ length forecast.now) }
    ensures { Turn held.now forecast.now waits.new (length forecast.now + 1) }
{
    let lands = first_room(forecast, waits, from);
    waiting(held, forecast, waits, from, lands.min(forecast.len()));
}

// The same for all forecasts.
fn refresh(odds: Odds, periods: usize, held: &[usize], waits: &mut [usize], from: usize)
    requires { Turns periods (length odds.weights.now) odds.rows.now held.now waits.old from × (1 ≤ from) × (from ≤ periods + 1) × (1 ≤ periods) }
    ensures { Turns periods (length odds.entry.weights.now) odds.entry.rows.now held.now waits.new (periods + 1) }
{
    for s in 0..odds.weights.len() {
        let forecast = forecast_at(odds.rows, periods, s);
        let place = s * PERIOD_ROW;
        refresh_one(held, forecast, &mut waits[place..place + PERIOD_ROW], from);
    }
}

// Where a flight held to period j lands, if one held to the next period lands in `next`.
fn lands_at(forecast: &[u32], waits: &[usize], j: usize, next: usize) -> usize
    requires { (1 ≤ j) × (j ≤ length forecast.now) × (j < length waits.now) × (next ≡ first_room (el waits.now) forecast.now (j + 1)) }
    ensures { result ≡ first_room (el waits.now) forecast.now j }
{
    if has_room(forecast, waits, j) {
        return j;
    }
    next
}

// Adds what a flight held to each period from `due` on waits in the air under one forecast, times its weight: from the back, so that every
// period's landing is found from the next one's.
fn add_air(forecast: &[u32], waits: &[usize], weight: usize, due: usize, air: &mut [usize])
    requires { Adding forecast.now waits.now weight due air.old air.old (length forecast.now + 1) }
    ensures { Adding forecast.now waits.now weight due air.old air.new due }
{
    let closing = forecast.len() + 1;
    let mut lands = closing;
    for j in (due..closing).rev() {
        lands = lands_at(forecast, waits, j, lands);
        air[j] += weight * (lands - j);
    }
}

// The same for all forecasts. Kept: a loop beside that of `refresh`, since one lends its part of the waits for writing, and one for reading.
fn weigh_air(odds: Odds, periods: usize, waits: &[usize], due: usize, air: &mut [usize])
    requires { Weighed periods odds.weights.now odds.rows.now waits.now due air.old 0 }
    ensures { Weighed periods odds.entry.weights.now odds.entry.rows.now waits.now due air.new (length odds.entry.weights.now) }
{
    for (s, weight) in odds.weights.iter().enumerate() {
        let forecast = forecast_at(odds.rows, periods, s);
        let place = s * PERIOD_ROW;
        add_air(
            forecast,
            &waits[place..place + PERIOD_ROW],
            *weight as usize,
            due,
            air,
        );
    }
}

// What a hold is expected to cost a flight. The weights add up to 1,000, so that the ground is paid 1,000 times.
#[tactic(auto, unfolding(crate::specs::Loop::weighed))]
fn cost_in(f: Flight, factor: usize, air: &[usize], hold: usize) -> usize
    requires { (f.rate ≤ 10000) × (factor ≤ 10) × (f.due + hold < length air.now) × (hold < period_row) × (el air.now (f.due + hold) ≤ 768000) }
    ensures { result ≡ weighed f factor (el air.now) hold }
{
    let rate = f.rate as usize;
    let held_to = f.due as usize + hold;
    ALL_WEIGHTS * rate * hold + factor * rate * air[held_to]
}

// The hold of least expected cost that takes a flight to period `last` at most; of equal ones the shortest.
fn least_hold(f: Flight, factor: usize, air: &[usize], last: usize) -> Chosen
    requires { Low f factor last air.now }
    ensures { Chooses (last - f.due) (weighed f factor (el air.now)) result }
{
    let longest = last - f.due as usize;
    let mut best = Chosen {
        hold: 0,
        cost: cost_in(f, factor, air, 0),
    };
    for hold in 1..longest + 1 {
        let cost = cost_in(f, factor, air, hold);
        if cost < best.cost {
            best = Chosen { hold, cost };
        }
    }
    best
}

// A flight's hold, from who waits under each forecast.
fn hold_of(f: Flight, odds: Odds, periods: usize, waits: &[usize]) -> Chosen
    requires { Ready f odds.factor periods odds.weights.now odds.rows.now waits.now }
    ensures { Chooses (last_of periods f - f.due) (weighed f odds.entry.factor (airborne periods odds.entry.weights.now odds.entry.rows.now waits.now (length odds.entry.weights.now))) result }
{
    let due = f.due as usize;
    let mut air = [0; PERIOD_ROW];
    weigh_air(odds, periods, waits, due, &mut air);
    least_hold(f, odds.factor, &air, last_of(periods, f))
}

// Holds the flights one after another and sums what they are expected to cost, with rows in which those held to each period are counted
// and those who wait there under each forecast are kept.
fn hold_all(
    day: ValidDay,
    odds: Odds,
    holds: &mut [u32],
    held: &mut [usize],
    waits: &mut [usize],
) -> usize
    requires { Placed (day_of day) (odds_of odds) holds.old held.old waits.old 0 0 }
    ensures value { result ≡ expected_total (day_of day.entry) (odds_of odds.entry) (forecast_holds (day_of day.entry) (odds_of odds.entry)) }
    ensures holds_after { holds.new ≡ forecast_holds (day_of day.entry) (odds_of odds.entry) }
{
    let periods = day.capacities.len();
    let mut total = 0;
    for i in 0..holds.len() {
        let f = day.flight_at(i);
        let chosen = hold_of(f, odds, periods, waits);
        let held_to = f.due as usize + chosen.hold;
        held[held_to] += 1;
        refresh(odds, periods, held, waits, held_to);
        holds[i] = chosen.hold as u32;
        total += chosen.cost;
    }
    total
}

// The same, with rows of its own.
fn hold_flights(day: ValidDay, odds: Odds, holds: &mut [u32]) -> usize
    requires { Fit (day_of day) (odds_of odds) × (length holds.old ≡ N (day_of day)) }
    ensures value { result ≡ expected_total (day_of day.entry) (odds_of odds.entry) (forecast_holds (day_of day.entry) (odds_of odds.entry)) }
    ensures holds_after { holds.new ≡ forecast_holds (day_of day.entry) (odds_of odds.entry) }
{
    let mut held = [0; PERIOD_ROW];
    let mut waits = [0; WAITS];
    hold_all(day, odds, holds, &mut held, &mut waits)
}

// No flight has a jump.
#[tactic(auto, unfolding(day::specs::Day::flight_count))]
fn no_jumps(flights: &[u32]) -> bool
    ensures { result ≡ no_jumps flights.now }
{
    (0..flight_count(flights)).all(|i| flight_at(flights, i).jump == 0)
}

// Refusal 13 is given where this says no.
#[tactic(auto, unfolding(crate::specs::Calls::terms_fit))]
fn terms_fit(flights: &[u32], count: usize, factor: usize) -> bool
    ensures { result ≡ terms_fit flights.now count factor }
{
    no_jumps(flights) && is_inside(1, 10, factor) && is_inside(1, FORECASTS, count)
}

// What the weights add up to. They are of 32 bits, and their sum may be more.
fn weight_sum(weights: &[u32]) -> usize
    requires { length weights.now ≤ 8 }
    ensures { result ≡ all_weights weights.now }
{
    weights.iter().map(|weight| *weight as usize).sum()
}

// Refusal 12 is given where this says no.
#[tactic(auto, unfolding(crate::specs::Calls::forecasts_fit))]
fn forecasts_fit(weights: &[u32], rows: &[u32]) -> bool
    requires { length weights.now ≤ 8 }
    ensures { result ≡ forecasts_fit weights.now rows.now }
{
    weight_sum(weights) == ALL_WEIGHTS && capacities_fit(rows)
}

// The plan for a day and terms that fit, if its rows do: refusals 7 and 12.
#[tactic(auto, unfolding(crate::specs::Calls::rows_plan))]
fn plan_rows(day: ValidDay, count: usize, odds: Odds, holds: &mut [u32]) -> Result<usize, Refusal>
    requires { terms_fit day.flights.now count odds.factor ≡ true }
    ensures value { result ≡ (rows_plan (day_of day.entry) (forecasts count odds.entry.factor odds.entry.weights odds.entry.rows) holds.old).answer }
    ensures holds_after { holds.new ≡ (rows_plan (day_of day.entry) (forecasts count odds.entry.factor odds.entry.weights odds.entry.rows) holds.old).holds }
{
    let n = day.flight_count();
    if holds.len() != n {
        return Err(Refusal::BadLength { needed: n });
    }
    if odds.weights.len() != count {
        return Err(Refusal::BadLength { needed: count });
    }
    let entries = count * day.capacities.len();
    if odds.rows.len() != entries {
        return Err(Refusal::BadLength { needed: entries });
    }
    if !forecasts_fit(odds.weights, odds.rows) {
        return Err(Refusal::BadForecasts);
    }
    Ok(hold_flights(day, odds, holds))
}

// Fills the hold row with the forecast plan and answers its expected total, in thousandths. Refusals, in this order: 6, a bad day; 13, a
// closing line, a jump, or a count or an air factor out of range; 7, a row of another length, the hold row first, then the weights, then the
// forecasts; 12, weights that do not add up to 1,000, or a capacity out of range. They leave the row as it was.
#[tactic(auto, unfolding(crate::specs::Calls::forecast_plan))]
pub fn forecast_plan(
    day: LentDay,
    count: u32,
    factor: u32,
    weights: &[u32],
    rows: &[u32],
    holds: &mut [u32],
) -> Result<usize, Refusal>
    ensures value { result ≡ (forecast_plan (lent_day day.entry) (forecasts count factor weights.entry rows.entry) holds.old).answer }
    ensures holds_after { holds.new ≡ (forecast_plan (lent_day day.entry) (forecasts count factor weights.entry rows.entry) holds.old).holds }
{
    let day = day.check()?;
    if day.closing != UNLIMITED {
        return Err(Refusal::BadTerms);
    }
    let forecast_count = count as usize;
    let odds = Odds {
        factor: factor as usize,
        weights,
        rows,
    };
    if !terms_fit(day.flights, forecast_count, odds.factor) {
        return Err(Refusal::BadTerms);
    }
    plan_rows(day, forecast_count, odds, holds)
}
