// The reader: sheets, and rows of other lengths.
use crate::back::read_back;
use crate::forecasts::run_forecasts;
use crate::growing::run_growths;
use crate::input::Kind;
use crate::plans::run_day;
use crate::refused::{run_lengths, run_values};
use crate::rows::{LONGER_ROW, MORE_PERIODS, RUBBISH, behind, expect_kept, front, front_mut};
use crate::show::{is_accepted, put_number, put_reading};
use day::{FLIGHT_ROW, FLIGHTS, LentDay, PERIODS, WIDTH};
use desk::ReadingCode;

// Past the day the rows are as they were; of a sheet that was refused, all of them. Kept: two rows, since there need be no day.
fn expect_rest_kept(code: ReadingCode, capacities: &[u32], flights: &[u32]) {
    let periods = code.first as usize;
    let count = code.second as usize;
    if !is_accepted(code.number) {
        expect_kept(capacities, RUBBISH);
        expect_kept(flights, RUBBISH);
        return;
    }
    expect_kept(behind(capacities, periods), RUBBISH);
    if count <= FLIGHTS {
        expect_kept(behind(flights, count * WIDTH), RUBBISH);
    }
}

// ` rows periods flights: number,first,second closing number`
fn read_into(sheet: &[u8], periods: usize, entries: usize) {
    let mut capacity_space = [RUBBISH; MORE_PERIODS];
    let mut flight_space = [RUBBISH; LONGER_ROW];
    let capacities = front_mut(&mut capacity_space, periods);
    let flights = front_mut(&mut flight_space, entries);
    let code = desk::hold_desk_read_sheet(sheet, capacities, flights);
    put_number(b"\n rows ", periods as u64);
    put_number(b" ", entries as u64);
    put_reading(b": ", code);
    expect_rest_kept(code, capacities, flights);
}

// The lengths that are asked for, then others.
pub fn run_reader(sheet: &[u8]) {
    let lengths = [
        (PERIODS, FLIGHT_ROW),
        (PERIODS - 1, FLIGHT_ROW),
        (PERIODS + 1, FLIGHT_ROW),
        (0, FLIGHT_ROW),
        (PERIODS, FLIGHT_ROW - 1),
        (PERIODS, FLIGHT_ROW + 1),
        (PERIODS, 0),
        (PERIODS - 1, FLIGHT_ROW - 1),
        (PERIODS + 1, FLIGHT_ROW + 1),
        (0, 0),
    ];
    for (periods, entries) in lengths {
        read_into(sheet, periods, entries);
    }
}

// What the example's kind asks for a day that was read; the text is for the kind `text`.
fn run_read(kind: Kind, day: LentDay, sheet: &[u8], text: &[u8]) {
    match kind {
        Kind::Day => run_day(day, sheet),
        Kind::Lengths => run_lengths(day),
        Kind::Values => run_values(day),
        Kind::Odds => run_forecasts(day),
        Kind::Growth => run_growths(day),
        Kind::Text => read_back(day, text, day::flight_count(day.flights)),
        Kind::Factors | Kind::Program | Kind::Read | Kind::Unfit => (),
    }
}

// The closing number as the calls take it; one that no day has where it is none.
fn closing_of(code: ReadingCode) -> u32 {
    let closing = code.closing;
    if closing <= 256 { closing as u32 } else { 257 }
}

pub fn run_sheet(kind: Kind, sheet: &[u8], text: &[u8]) {
    let mut capacity_space = [RUBBISH; MORE_PERIODS];
    let mut flight_space = [RUBBISH; LONGER_ROW];
    let capacities = front_mut(&mut capacity_space, PERIODS);
    let flights = front_mut(&mut flight_space, FLIGHT_ROW);
    let code = desk::hold_desk_read_sheet(sheet, capacities, flights);
    put_reading(b" read ", code);
    expect_rest_kept(code, capacities, flights);
    let periods = code.first as usize;
    let count = code.second as usize;
    if is_accepted(code.number) && count <= FLIGHTS {
        run_read(
            kind,
            LentDay {
                capacities: front(capacities, periods),
                flights: front(flights, count * WIDTH),
                closing: closing_of(code),
            },
            sheet,
            text,
        );
    }
}
