// The writer of day sheets: it puts a day's sheet into a lent byte buffer, from a given place on.
#![tactic(auto)]

ghost use Rattle.std.specs.Prelude.{◌≡◌, ◌+◌, ◌*◌, ◌≤◌, length};
ghost use Rattle.text.specs.Writing.{Put};
ghost use Rattle.day.specs.Day.{has_line, width, most_periods, most_flights};
ghost use Rattle.day.specs.Checked.{lent_day, day_of};
ghost use Rattle.day.specs.Flights.{first_flights};
ghost use Rattle.sheet.specs.Text.{closing_text, limit_text, period_text, before_limit, flight_text, periods_text, flights_text, sheet_of};
ghost use Rattle.sheet_writer.specs.Write.{write_answer, write_after};

use answers::Refusal;
use day::{Flight, LentDay, MISSING, UNLIMITED, ValidDay, flight_at};
use sheet::{
    CLOSING_NAME, CLOSING_NAME_LEN, DASH, FLIGHT_NAMES, FLIGHT_NAMES_LEN, PERIOD_NAMES,
    PERIOD_NAMES_LEN,
};
use text::{
    COMMA, LINE_END, line_len, number_len, put_fixed, put_fixed_at, put_line, put_number_at,
    put_separated_at, separated_len,
};

// Both names lines together.
const NAMES_LEN: usize = PERIOD_NAMES_LEN + FLIGHT_NAMES_LEN;

// The limit of a flight line from `at` on; the place behind it.
fn put_limit(out: &mut [u8], at: usize, limit: u32) -> usize
    requires { at + length (limit_text limit) ≤ length out.old }
    ensures { Put out.old at (limit_text limit) result out.new }
{
    if limit == MISSING {
        return put_fixed_at(out, at, &[DASH, COMMA]);
    }
    put_number_at(out, at, limit as usize, COMMA)
}

fn limit_len(limit: u32) -> usize
    ensures { (result ≡ length (limit_text limit)) × (result ≤ 21) }
{
    if limit == MISSING {
        return 2;
    }
    number_len(limit as usize)
}

// The numbers of a flight line before its limit.
fn values_of(f: Flight) -> [usize; 5]
    ensures { result ≡ before_limit f }
{
    [
        f.number as usize,
        f.due as usize,
        f.rate as usize,
        f.after as usize,
        f.jump as usize,
    ]
}

// A flight line, at the front of out; how many bytes. Kept: beside `put_flight_at`, since docs/01-scope.md has line writers fill the front of a
// lent part.
fn put_flight(out: &mut [u8], f: Flight) -> usize
    requires { length (flight_text f) ≤ length out.old }
    ensures { Put out.old 0 (flight_text f) result out.new }
{
    let values = values_of(f);
    let next = put_separated_at(out, 0, &values);
    let last = put_limit(out, next, f.limit);
    put_number_at(out, last, f.late as usize, LINE_END)
}

// The same from `at` on: the part that starts there is lent on; the place behind it.
fn put_flight_at(out: &mut [u8], at: usize, f: Flight) -> usize
    requires { at + length (flight_text f) ≤ length out.old }
    ensures { Put out.old at (flight_text f) result out.new }
{
    let k = put_flight(&mut out[at..], f);
    at + k
}

fn flight_len(f: Flight) -> usize
    ensures { (result ≡ length (flight_text f)) × (result ≤ 147) }
{
    let values = values_of(f);
    separated_len(&values) + limit_len(f.limit) + number_len(f.late as usize)
}

// The line of period j, at the front of out; how many bytes. Kept: beside `put_period_at`, for the same reason.
#[tactic(auto, unfolding(sheet::specs::Text::period_text))]
fn put_period(out: &mut [u8], j: usize, capacity: u32) -> usize
    requires { length (period_text j capacity) ≤ length out.old }
    ensures { Put out.old 0 (period_text j capacity) result out.new }
{
    put_line(out, &[j], capacity as usize)
}

// The same from `at` on: the part that starts there is lent on; the place behind it.
fn put_period_at(out: &mut [u8], at: usize, j: usize, capacity: u32) -> usize
    requires { at + length (period_text j capacity) ≤ length out.old }
    ensures { Put out.old at (period_text j capacity) result out.new }
{
    let k = put_period(&mut out[at..], j, capacity);
    at + k
}

#[tactic(auto, unfolding(sheet::specs::Text::period_text))]
fn period_len(j: usize, capacity: u32) -> usize
    ensures { (result ≡ length (period_text j capacity)) × (result ≤ 42) }
{
    line_len(&[j], capacity as usize)
}

fn put_periods(out: &mut [u8], start: usize, capacities: &[u32]) -> usize
    requires { (start + length (periods_text 1 capacities.now) ≤ length out.old) × (length capacities.now ≤ most_periods) }
    ensures { Put out.old start (periods_text 1 capacities.now) result out.new }
{
    let mut at = start;
    for (i, capacity) in capacities.iter().enumerate() {
        at = put_period_at(out, at, i + 1, *capacity);
    }
    at
}

fn periods_len(capacities: &[u32]) -> usize
    requires { length capacities.now ≤ most_periods }
    ensures { (result ≡ length (periods_text 1 capacities.now)) × (result ≤ 4032) }
{
    let mut sum = 0;
    for (i, capacity) in capacities.iter().enumerate() {
        sum += period_len(i + 1, *capacity);
    }
    sum
}

fn put_flights(out: &mut [u8], start: usize, flights: &[u32], n: usize) -> usize
    requires { (start + length (flights_text (first_flights n flights.now)) ≤ length out.old) × (n ≤ most_flights) × (n * width ≤ length flights.now) }
    ensures { Put out.old start (flights_text (first_flights n flights.now)) result out.new }
{
    let mut at = start;
    for i in 0..n {
        at = put_flight_at(out, at, flight_at(flights, i));
    }
    at
}

fn flights_len(flights: &[u32], n: usize) -> usize
    requires { (n ≤ most_flights) × (n * width ≤ length flights.now) }
    ensures { (result ≡ length (flights_text (first_flights n flights.now))) × (result ≤ 18816) }
{
    let mut sum = 0;
    for i in 0..n {
        sum += flight_len(flight_at(flights, i));
    }
    sum
}

// Whether a closing line is there.
fn has_line(closing: u32) -> bool
    ensures { result ≡ has_line closing }
{
    closing < UNLIMITED
}

// The closing line, if there is one, at the front of out; how many bytes. Kept: beside `put_closing_at`, for the same reason.
fn put_closing(out: &mut [u8], closing: u32) -> usize
    requires { length (closing_text closing) ≤ length out.old }
    ensures { Put out.old 0 (closing_text closing) result out.new }
{
    if has_line(closing) {
        let number = put_fixed(out, CLOSING_NAME);
        return put_number_at(out, number, closing as usize, LINE_END);
    }
    0
}

// The same from `at` on: the part that starts there is lent on; the place behind it.
fn put_closing_at(out: &mut [u8], at: usize, closing: u32) -> usize
    requires { at + length (closing_text closing) ≤ length out.old }
    ensures { Put out.old at (closing_text closing) result out.new }
{
    let k = put_closing(&mut out[at..], closing);
    at + k
}

fn closing_len(closing: u32) -> usize
    ensures { (result ≡ length (closing_text closing)) × (result ≤ 29) }
{
    if has_line(closing) {
        return CLOSING_NAME_LEN + number_len(closing as usize);
    }
    0
}

// The whole sheet, at the front of out.
fn fill_sheet(out: &mut [u8], day: ValidDay) -> usize
    requires { length (sheet_of (day_of day)) ≤ length out.old }
    ensures { Put out.old 0 (sheet_of (day_of day.entry)) result out.new }
{
    let n = day.flight_count();
    let a = put_fixed(out, PERIOD_NAMES);
    let b = put_periods(out, a, day.capacities);
    let c = put_closing_at(out, b, day.closing);
    let d = put_fixed_at(out, c, FLIGHT_NAMES);
    put_flights(out, d, day.flights, n)
}

// How many bytes the sheet takes.
fn sheet_len(day: ValidDay) -> usize
    ensures { result ≡ length (sheet_of (day_of day.entry)) }
{
    let n = day.flight_count();
    periods_len(day.capacities) + flights_len(day.flights, n) + closing_len(day.closing) + NAMES_LEN
}

// Writes the sheet of a day into the buffer from the place on. The line writers get the part of it that starts there.
#[tactic(auto, unfolding(crate::specs::Write::write_answer, crate::specs::Write::write_after, text::specs::Writing::text_answer, text::specs::Writing::text_after, text::specs::Writing::fits))]
pub fn write_sheet(day: LentDay, text: &mut [u8], place: usize) -> Result<usize, Refusal>
    ensures value { result ≡ write_answer (lent_day day.entry) text.old place }
    ensures text_after { text.new ≡ write_after (lent_day day.entry) text.old place }
{
    let day = day.check()?;
    let needed = sheet_len(day);
    if text.len() < place || text.len() - place < needed {
        return Err(Refusal::BadLength { needed });
    }
    fill_sheet(&mut text[place..], day);
    Ok(needed)
}
