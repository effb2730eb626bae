// The reader of day sheets: it fills two lent rows from a sheet and answers the closing number, or says why not.
#![tactic(auto)]

ghost use Rattle.std.specs.Prelude.{◌≡◌, List, [], ℕ, ◌*◌, ◌≤◌, length, take};
ghost use Rattle.day.specs.Day.{most_periods, most_flights, width};
ghost use Rattle.day.specs.Flights.{first_flights};
ghost use Rattle.sheet.specs.Text.{period_names};
ghost use Rattle.sheet.specs.Lines.{limit_field, period_line, flight_line, used};
ghost use Rattle.sheet.specs.Sheet.{ends_periods, named, periods_end, read_periods, read_flights, reading, answer_of, capacities_after, flights_after};
ghost use Rattle.sheet_reader.specs.Loop.{go_on, Ready, filled, Few};

use answers::Refusal;
use day::{
    FLIGHT_ROW, FLIGHTS, Flight, MISSING, PERIODS, UNLIMITED, WIDTH, flight_fits, number_of,
    put_flight,
};
use sheet::{
    CLOSING_NAME, DASH, DIGITS, FLIGHT_NAMES, FlightLine, PERIOD_NAMES, PeriodLine, SheetRead,
};
use text::{COMMA, LINE_END, Number, field_at, fixed_at, line_at, separated_at};

// The limit of a flight line: a dash for a missing one, or a number.
fn limit_at(s: &[u8], at: usize) -> Option<Number>
    requires { at ≤ length s.now }
    ensures { result ≡ limit_field s.now at }
{
    if at < s.len() && s[at] == DASH {
        if at + 1 < s.len() && s[at + 1] == COMMA {
            return Some(Number {
                n: MISSING,
                next: at + 2,
            });
        }
        return None;
    }
    let Number { n, next } = field_at(s, at, DIGITS, COMMA)?;
    // A number above 96 is no limit, and must not become the 255 of a missing one: 256 is in no range.
    let limit = if n <= 96 { n } else { 256 };
    Some(Number { n: limit, next })
}

// The period line at a place, if there is one.
fn period_line(s: &[u8], at: usize) -> Option<PeriodLine>
    requires { at ≤ length s.now }
    ensures { result ≡ period_line s.now at }
{
    let mut numbers = [0u32; 1];
    let Number { n: capacity, next } = line_at(s, at, DIGITS, &mut numbers)?;
    Some(PeriodLine {
        number: numbers[0],
        capacity,
        next,
    })
}

// The flight line at a place, if there is one.
fn flight_line(s: &[u8], at: usize) -> Option<FlightLine>
    requires { at ≤ length s.now }
    ensures { result ≡ flight_line s.now at }
{
    let mut numbers = [0u32; 5];
    let behind = separated_at(s, at, DIGITS, &mut numbers)?;
    let limit = limit_at(s, behind)?;
    let late = field_at(s, limit.next, DIGITS, LINE_END)?;
    Some(FlightLine {
        flight: Flight {
            number: numbers[0],
            due: numbers[1],
            rate: numbers[2],
            after: numbers[3],
            jump: numbers[4],
            limit: limit.n,
            late: late.n,
        },
        next: late.next,
    })
}

// The lines up to the second names line read: how many periods, where the flight lines begin, and the closing number.
#[derive(Clone, Copy)]
pub struct Periods {
    pub count: usize,
    pub at: usize,
    pub closing: u32,
}

// A line that ends the period lines: the second names line, or one that begins as a closing line.
fn end_here(s: &[u8], at: usize) -> bool
    requires { at ≤ length s.now }
    ensures { result ≡ ends_periods s.now at }
{
    fixed_at(s, at, FLIGHT_NAMES) || fixed_at(s, at, CLOSING_NAME)
}

// Whether one of the first n flights of the row has this number.
fn number_used(row: &[u32; FLIGHT_ROW], n: usize, number: u32) -> bool
    requires { n ≤ most_flights }
    ensures { result ≡ used number (first_flights n row.now) }
{
    for j in 0..n {
        if number_of(row, j) == number as usize {
            return true;
        }
    }
    false
}

// The second names line, where only it may stand, after n period lines.
fn read_names(s: &[u8], at: usize, n: usize, closing: u32) -> Result<Periods, Refusal>
    requires { (at ≤ length s.now) × (n ≤ most_periods) }
    ensures ready { Ready result s.now }
    ensures by_index { (caps : List ℕ) → named s.now at (take n caps) closing ≡ go_on result s.now caps }
{
    if !fixed_at(s, at, FLIGHT_NAMES) {
        return Err(Refusal::BadForm { line: at });
    }
    Ok(Periods {
        count: n,
        at: at + FLIGHT_NAMES.len(),
        closing,
    })
}

// The line that ends n period lines and, where it is a closing line, the second names line behind it.
fn read_end(s: &[u8], at: usize, n: usize) -> Result<Periods, Refusal>
    requires { (at ≤ length s.now) × (n ≤ most_periods) }
    ensures ready { Ready result s.now }
    ensures by_index { (caps : List ℕ) → n ≤ length caps → periods_end s.now at (take n caps) ≡ go_on result s.now caps }
{
    if n == 0 {
        return Err(Refusal::BadCount { line: at });
    }
    if !fixed_at(s, at, CLOSING_NAME) {
        return read_names(s, at, n, UNLIMITED);
    }
    let line = field_at(s, at + CLOSING_NAME.len(), DIGITS, LINE_END);
    let Number { n: closing, next } = line.ok_or(Refusal::BadForm { line: at })?;
    if 255 < closing {
        return Err(Refusal::OutOfRange { line: at });
    }
    read_names(s, next, n, closing)
}

// The period lines, into the row, and what ends them.
fn read_periods(s: &[u8], caps: &mut [u32; PERIODS]) -> Result<Periods, Refusal>
    requires { (length period_names ≤ length s.now) × (length caps.old ≡ most_periods) }
    ensures caps_len { length caps.new ≡ most_periods }
    ensures rest_read { read_periods most_periods s.now (length period_names) [] ≡ go_on result s.now caps.new }
    ensures ready { Ready result s.now }
{
    let mut at = PERIOD_NAMES.len();
    for n in 0..PERIODS {
        if end_here(s, at) {
            return read_end(s, at, n);
        }
        let line = period_line(s, at).ok_or(Refusal::BadForm { line: at })?;
        if line.number as usize != n + 1 || 255 < line.capacity {
            return Err(Refusal::OutOfRange { line: at });
        }
        caps[n] = line.capacity;
        at = line.next;
    }
    if end_here(s, at) {
        return read_end(s, at, PERIODS);
    }
    if at == s.len() {
        return Err(Refusal::BadForm { line: at });
    }
    Err(Refusal::BadCount { line: at })
}

// The flight lines, into the row; how many.
fn read_flights(
    s: &[u8],
    start: usize,
    p: usize,
    row: &mut [u32; FLIGHT_ROW],
) -> Result<usize, Refusal>
    requires { (start ≤ length s.now) × (p ≤ most_periods) × (length row.old ≡ most_flights * width) }
    ensures row_len { length row.new ≡ most_flights * width }
    ensures few { Few result }
    ensures by_index { (caps : List ℕ) (closing : ℕ) → length caps ≡ p → read_flights most_flights s.now start caps closing [] ≡ filled result caps closing row.new }
{
    let mut at = start;
    for n in 0..FLIGHTS {
        if at == s.len() {
            return Ok(n);
        }
        let line = flight_line(s, at).ok_or(Refusal::BadForm { line: at })?;
        if !flight_fits(p, line.flight) {
            return Err(Refusal::OutOfRange { line: at });
        }
        if number_used(row, n, line.flight.number) {
            return Err(Refusal::NumberUsed { line: at });
        }
        put_flight(row, n, line.flight);
        at = line.next;
    }
    if at < s.len() {
        return Err(Refusal::BadCount { line: at });
    }
    Ok(FLIGHTS)
}

// The flight lines and, where they are read too, the day into the lent rows.
fn read_rest(
    sheet: &[u8],
    at: usize,
    count: usize,
    closing: u32,
    caps: &[u32; PERIODS],
    capacities: &mut [u32],
    flights: &mut [u32],
) -> Result<SheetRead, Refusal>
    requires { (at ≤ length sheet.now) × (count ≤ most_periods) × (length caps.now ≡ most_periods) × (length capacities.old ≡ most_periods) × (length flights.old ≡ most_flights * width) }
    ensures value { result ≡ answer_of (read_flights most_flights sheet.now at (take count caps.now) closing []) }
    ensures capacities_after { capacities.new ≡ capacities_after (read_flights most_flights sheet.now at (take count caps.now) closing []) capacities.old }
    ensures flights_after { flights.new ≡ flights_after (read_flights most_flights sheet.now at (take count caps.now) closing []) flights.old }
{
    let mut rows = [0u32; FLIGHT_ROW];
    let n = read_flights(sheet, at, count, &mut rows)?;
    capacities[..count].copy_from_slice(&caps[..count]);
    flights[..n * WIDTH].copy_from_slice(&rows[..n * WIDTH]);
    Ok(SheetRead {
        periods: count,
        flights: n,
        closing,
    })
}

// Reads a sheet into lent rows of the most periods and of the most flights.
pub fn read_sheet(
    sheet: &[u8],
    capacities: &mut [u32],
    flights: &mut [u32],
) -> Result<SheetRead, Refusal>
    ensures value { result ≡ answer_of (reading sheet.now capacities.old flights.old) }
    ensures capacities_after { capacities.new ≡ capacities_after (reading sheet.now capacities.old flights.old) capacities.old }
    ensures flights_after { flights.new ≡ flights_after (reading sheet.now capacities.old flights.old) flights.old }
{
    if capacities.len() != PERIODS {
        return Err(Refusal::BadLength { needed: PERIODS });
    }
    if flights.len() != FLIGHT_ROW {
        return Err(Refusal::BadLength { needed: FLIGHT_ROW });
    }
    if 8192 < sheet.len() {
        return Err(Refusal::TooLong);
    }
    if !fixed_at(sheet, 0, PERIOD_NAMES) {
        return Err(Refusal::BadForm { line: 0 });
    }
    let mut caps = [0u32; PERIODS];
    let Periods { count, at, closing } = read_periods(sheet, &mut caps)?;
    read_rest(sheet, at, count, closing, &caps, capacities, flights)
}
