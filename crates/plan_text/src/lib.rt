// The text of a plan, put into a lent byte buffer from a given place on.
#![tactic(auto)]

ghost use Rattle.std.specs.Prelude.{◌≡◌, [], ◌∷◌, ◌+◌, ◌*◌, ◌≤◌, ◌<◌, length};
ghost use Rattle.text.specs.Writing.{Put, text_answer, text_after};
ghost use Rattle.day.specs.Day.{most_flights, width, number_of, due_of, flight_at, flight_count, hold_cost, hold, land_of, total_of};
ghost use Rattle.day.specs.Checked.{lent_day};
ghost use Rattle.plan_text.specs.PlanText.{plan_line, plan_lines, plan_text, plan_text_answer, plan_text_after};

use answers::Refusal;
use day::{LentDay, cost_of, due_of, land_of, number_of};
use legality::check_plan;
use text::{line_len, number_len, put_fixed, put_fixed_at, put_line_at};

pub const PLAN_NAMES: &[u8] = b"flight,due,lands,hold,cost\n";

pub const PLAN_NAMES_LEN: usize = PLAN_NAMES.len();

pub const TOTAL_NAME: &[u8] = b"total\n";

pub const TOTAL_NAME_LEN: usize = TOTAL_NAME.len();

// The numbers of a flight's line but for its cost.
fn values_of(flights: &[u32], holds: &[u32], i: usize) -> [usize; 4]
    requires { (i < length holds.now) × ((i + 1) * width ≤ length flights.now) }
    ensures { result ≡ number_of flights.now i ∷ due_of flights.now i ∷ land_of flights.now holds.now i ∷ hold holds.now i ∷ [] }
{
    [
        number_of(flights, i),
        due_of(flights, i),
        land_of(flights, holds, i),
        holds[i] as usize,
    ]
}

// The line of the flight at table place i from `at` on.
#[tactic(auto, unfolding(crate::specs::PlanText::plan_line))]
fn put_plan_line(out: &mut [u8], at: usize, flights: &[u32], holds: &[u32], i: usize) -> usize
    requires { (i < length holds.now) × ((i + 1) * width ≤ length flights.now) × (at + length (plan_line flights.now holds.now i) ≤ length out.old) }
    ensures { Put out.old at (plan_line flights.now holds.now i) result out.new }
{
    let values = values_of(flights, holds, i);
    let cost = cost_of(flights, i, holds[i] as usize);
    put_line_at(out, at, &values, cost)
}

#[tactic(auto, unfolding(crate::specs::PlanText::plan_line))]
fn plan_line_len(flights: &[u32], holds: &[u32], i: usize) -> usize
    requires { (i < length holds.now) × ((i + 1) * width ≤ length flights.now) }
    ensures { (result ≡ length (plan_line flights.now holds.now i)) × (result ≤ 105) }
{
    let values = values_of(flights, holds, i);
    let cost = cost_of(flights, i, holds[i] as usize);
    line_len(&values, cost)
}

fn put_plan_lines(out: &mut [u8], start: usize, flights: &[u32], holds: &[u32]) -> usize
    requires { (length holds.now * width ≤ length flights.now) × (start + length (plan_lines flights.now holds.now (length holds.now) 0) ≤ length out.old) }
    ensures { Put out.old start (plan_lines flights.now holds.now (length holds.now) 0) result out.new }
{
    let mut at = start;
    for i in 0..holds.len() {
        at = put_plan_line(out, at, flights, holds, i);
    }
    at
}

// How many bytes the lines of as many flights as there are holds take.
pub fn plan_lines_len(flights: &[u32], holds: &[u32]) -> usize
    requires { (length holds.now * width ≤ length flights.now) × (length holds.now ≤ most_flights) }
    ensures { (result ≡ length (plan_lines flights.now holds.now (length holds.now) 0)) × (result ≤ 13440) }
{
    let mut sum: usize = 0;
    for i in 0..holds.len() {
        sum += plan_line_len(flights, holds, i);
    }
    sum
}

// The whole text, at the front of out.
fn fill_plan(out: &mut [u8], flights: &[u32], holds: &[u32], sum: usize) -> usize
    requires { (length holds.now ≡ flight_count flights.now) × (sum ≡ total_of flights.now holds.now) × (length holds.now * width ≤ length flights.now) × (length (plan_text flights.now holds.now) ≤ length out.old) }
    ensures { Put out.old 0 (plan_text flights.now holds.now) result out.new }
{
    let lines_at = put_fixed(out, PLAN_NAMES);
    let total_name_at = put_plan_lines(out, lines_at, flights, holds);
    let total_at = put_fixed_at(out, total_name_at, TOTAL_NAME);
    put_line_at(out, total_at, &[], sum)
}

// How many bytes the text takes.
fn plan_len(flights: &[u32], holds: &[u32], sum: usize) -> usize
    requires { (length holds.now ≡ flight_count flights.now) × (sum ≡ total_of flights.now holds.now) × (length holds.now * width ≤ length flights.now) × (length holds.now ≤ most_flights) }
    ensures { result ≡ length (plan_text flights.now holds.now) }
{
    PLAN_NAMES_LEN + plan_lines_len(flights, holds) + TOTAL_NAME_LEN + number_len(sum)
}

// The text of a legal plan, with its total, from the place on. The line writers get the part of the buffer that starts there.
#[tactic(auto, unfolding(text::specs::Writing::text_answer, text::specs::Writing::text_after, text::specs::Writing::fits))]
fn write_legal(
    flights: &[u32],
    holds: &[u32],
    sum: usize,
    buffer: &mut [u8],
    place: usize,
) -> Result<usize, Refusal>
    requires { (length holds.now ≡ flight_count flights.now) × (sum ≡ total_of flights.now holds.now) × (length holds.now * width ≤ length flights.now) × (length holds.now ≤ most_flights) }
    ensures value { result ≡ text_answer buffer.old place (plan_text flights.now holds.now) }
    ensures buffer_after { buffer.new ≡ text_after buffer.old place (plan_text flights.now holds.now) }
{
    let needed = plan_len(flights, holds, sum);
    // A text has some bytes, so that behind the buffer's end there is too little room too.
    if buffer.len().saturating_sub(place) < needed {
        return Err(Refusal::BadLength { needed });
    }
    fill_plan(&mut buffer[place..], flights, holds, sum);
    Ok(needed)
}

// Writes the text of a plan into the buffer from the place on, for a day and rows of any content and length.
#[tactic(auto, using(crate::proofs::Placing::legal_rows), unfolding(crate::specs::PlanText::plan_text_answer, crate::specs::PlanText::plan_text_after))]
pub fn write_plan(
    day: LentDay,
    holds: &[u32],
    text: &mut [u8],
    place: usize,
) -> Result<usize, Refusal>
    ensures value { result ≡ plan_text_answer (lent_day day.entry) holds.now text.old place }
    ensures text_after { text.new ≡ plan_text_after (lent_day day.entry) holds.now text.old place }
{
    let total = check_plan(day, holds)?;
    write_legal(day.flights, holds, total, text, place)
}
