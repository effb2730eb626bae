// A plan text read back: the hold row of the legal plan whose text it is, or the first line with which no legal plan's text goes on.
#![tactic(auto)]

ghost use Rattle.std.specs.Prelude.{◌≡◌, ◌+◌, ◌*◌, ◌≤◌, length};
ghost use Rattle.answers.specs.declared.Refusal.TheVariants.{BadPlanText};
ghost use Rattle.answers.specs.Decides.{Decides};
ghost use Rattle.day.specs.Day.{most_flights, width};
ghost use Rattle.day.specs.Checked.{lent_day, day_of};
ghost use Rattle.plan_text.specs.PlanText.{plan_names};
ghost use Rattle.completion.specs.Loop.{Partial};
ghost use Rattle.plan_reader.specs.PlanReading.{TextRead, ReadPlan};
ghost use Rattle.plan_reader.specs.Loop.{Shows, HoldRead, front_lines, Read, LinesRead, BehindMost, CanEnd, EndRead, RowsRead, LargeRows};

use answers::Refusal;
use completion::{all_places, most_completed, take_landing};
use day::{FLIGHTS, LentDay, PERIODS, ValidDay, cost_of, due_of, number_of};
use legality::total_of;
use plan_text::{PLAN_NAMES, TOTAL_NAME, plan_lines_len};
use text::{LINE_END, Number, field_at, fixed_at, line_at};

// The most digits of a number in a flight's line, and of a total.
const LINE_DIGITS: usize = 7;

const TOTAL_DIGITS: usize = 9;

// How many flights' lines are read, and the place behind them.
#[derive(Clone, Copy)]
pub struct Front {
    pub flights: usize,
    pub at: usize,
}

// The first line that is not the plan's, by the offset of its first byte.
#[derive(Clone, Copy)]
pub struct WrongLine {
    pub line: usize,
}

impl From<WrongLine> for Refusal {
    ghost from_gives = { λ wrong refusal. refusal ≡ BadPlanText wrong.line };

    fn from(wrong: WrongLine) -> Refusal {
        Refusal::BadPlanText { line: wrong.line }
    }
}

// The numbers of a line are those of the flight at table place i with the hold that the line shows.
fn shows_flight(flights: &[u32], i: usize, numbers: &[u32], cost: u32) -> bool
    requires { ((i + 1) * width ≤ length flights.now) × (length numbers.now ≡ 4) }
    ensures { Decides result (Shows flights.now i numbers.now cost) }
{
    let hold = numbers[3] as usize;
    let due = due_of(flights, i);
    numbers[0] as usize == number_of(flights, i)
        && numbers[1] as usize == due
        && numbers[2] as usize == due + hold
        && cost as usize == cost_of(flights, i, hold)
}

// The hold that the line at a place shows, if it is a line of the flight at table place i, and the place behind it.
fn hold_at(text: &[u8], at: usize, flights: &[u32], i: usize) -> Option<Number>
    requires { (at ≤ length text.now) × ((i + 1) * width ≤ length flights.now) }
    ensures { HoldRead flights.now text.now at i result }
{
    let mut numbers = [0u32; 4];
    let Number { n: cost, next } = line_at(text, at, LINE_DIGITS, &mut numbers)?;
    if shows_flight(flights, i, &numbers, cost) {
        return Some(Number {
            n: numbers[3],
            next,
        });
    }
    None
}

// Reads the flights' lines behind the names line, up to the first that is wrong in itself: not a line of its flight, or with a hold that
// is over its limit or overfills its period.
fn read_lines(day: ValidDay, text: &[u8], holds: &mut [u32], left: &mut [u32]) -> Front
    requires { Read (day_of day) text.now holds.old left.old 0 (length plan_names) }
    ensures { LinesRead (day_of day.entry) text.now holds.new left.new result }
{
    let n = day.flight_count();
    let mut at = PLAN_NAMES.len();
    for i in 0..n {
        let Some(Number { n: hold, next }) = hold_at(text, at, day.flights, i) else {
            return Front { flights: i, at };
        };
        holds[i] = hold;
        if !take_landing(day, holds, i, left) {
            return Front { flights: i, at };
        }
        at = next;
    }
    Front { flights: n, at }
}

// The place behind the names line and the lines of the first m flights.
fn place_behind(flights: &[u32], holds: &[u32], m: usize) -> usize
    requires { (m ≤ length holds.now) × (length holds.now * width ≤ length flights.now) × (length holds.now ≤ most_flights) }
    ensures { result ≡ length (front_lines flights.now holds.now m) }
{
    PLAN_NAMES.len() + plan_lines_len(flights, &holds[..m])
}

// The place of the line that is the first wrong one where the lines of i flights are right in themselves and the next is not: the one behind
// the lines that can be completed to a legal plan, or the names line if the day has none.
fn first_wrong(day: ValidDay, holds: &[u32], i: usize, left: &mut [u32]) -> usize
    requires { Partial (day_of day) holds.now left.old i }
    ensures { BehindMost (day_of day.entry) holds.now i result }
{
    match most_completed(day, holds, i, left) {
        Some(m) => place_behind(day.flights, holds, m),
        None => 0,
    }
}

// Reads what stands behind the lines of all flights: the total's two lines and nothing more, or the first line that is another.
fn read_end(flights: &[u32], text: &[u8], holds: &[u32], at: usize) -> Result<usize, WrongLine>
    requires { CanEnd flights.now text.now holds.now at }
    ensures { EndRead flights.now text.now holds.now result }
{
    if !fixed_at(text, at, TOTAL_NAME) {
        return Err(WrongLine { line: at });
    }
    let line = at + TOTAL_NAME.len();
    let Some(Number { n, next }) = field_at(text, line, TOTAL_DIGITS, LINE_END) else {
        return Err(WrongLine { line });
    };
    let total = total_of(flights, holds);
    if n as usize != total {
        return Err(WrongLine { line });
    }
    if next != text.len() {
        return Err(WrongLine { line: next });
    }
    Ok(total)
}

// Reads a text into rows of ours: holds for the day's flights, and the places that they leave.
fn read_rows(
    day: ValidDay,
    text: &[u8],
    holds: &mut [u32],
    left: &mut [u32],
) -> Result<usize, WrongLine>
    requires { Partial (day_of day) holds.old left.old 0 }
    ensures { RowsRead (day_of day.entry) text.now holds.new result }
{
    if !fixed_at(text, 0, PLAN_NAMES) {
        return Err(WrongLine { line: 0 });
    }
    let Front { flights: i, at } = read_lines(day, text, holds, left);
    if i < day.flight_count() {
        let line = first_wrong(day, holds, i, left);
        return Err(WrongLine { line });
    }
    read_end(day.flights, text, holds, at)
}

// Reads a text into the fronts of rows that are large enough for any day, and fills the lent hold row only where all of it is right.
fn read_in(
    day: ValidDay,
    text: &[u8],
    holds: &mut [u32],
    row: &mut [u32],
    left: &mut [u32],
) -> Result<usize, Refusal>
    requires { LargeRows (day_of day) holds.old row.old left.old }
    ensures { TextRead (day_of day.entry) text.now result holds.old holds.new }
{
    let n = holds.len();
    let counted = all_places(day.capacities, day.closing, left);
    let total = read_rows(day, text, &mut row[..n], &mut left[..counted])?;
    holds.copy_from_slice(&row[..n]);
    Ok(total)
}

// Fills the hold row with the legal plan whose text this is, and answers its total, for a day, a text and a row of any content and length.
// Refusals, in this order: 6; 7; 15 with the first line with which no legal plan's text goes on. They leave the row as it was.
pub fn read_plan(day: LentDay, text: &[u8], holds: &mut [u32]) -> Result<usize, Refusal>
    ensures { ReadPlan (lent_day day.entry) text.now result holds.old holds.new }
{
    let day = day.check()?;
    let n = day.flight_count();
    if holds.len() != n {
        return Err(Refusal::BadLength { needed: n });
    }
    let mut row = [0u32; FLIGHTS];
    let mut left = [0u32; PERIODS + 1];
    read_in(day, text, holds, &mut row, &mut left)
}
