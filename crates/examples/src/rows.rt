// Rows and buffers of rubbish, made anew for each call, and the comparisons after it. What a call changed though it had to leave it is
// reported as `CHANGED`.
use crate::show::{is_accepted, put, put_row};
use answers::Code;
use day::{FLIGHT_ROW, FLIGHTS, LentDay, PERIODS, WIDTH};

pub const RUBBISH: u32 = u32::MAX;

pub const RUBBISH_BYTE: u8 = 35;

// Each row has room for one period or one flight more than a day may have.
pub const MORE_PERIODS: usize = PERIODS + 1;

pub const MORE_FLIGHTS: usize = FLIGHTS + 1;

// One more than the periods of a day and its closing period.
pub const MORE_PRICES: usize = PERIODS + 2;

pub const LONGER_ROW: usize = FLIGHT_ROW + WIDTH;

// A text's buffer has room for every text of the program.
pub const TEXT_ROOM: usize = 4096;

// A place beyond it.
pub const NO_ROOM: usize = TEXT_ROOM + 1;

// How many prices a day has; for a row that is no day's, some number.
pub fn price_count(day: LentDay) -> usize {
    let periods = day.capacities.len();
    if PERIODS < periods {
        return 0;
    }
    day::counted_of(periods, day.closing)
}

// The first entries of a row; all where it has fewer.
pub fn front(row: &[u32], count: usize) -> &[u32] {
    &row[..count.min(row.len())]
}

// Kept: beside `front`, since one function cannot lend both for reading and for writing.
pub fn front_mut(row: &mut [u32], count: usize) -> &mut [u32] {
    let end = count.min(row.len());
    &mut row[..end]
}

// The `length` bytes from a place on; all bytes where there are fewer.
pub fn part(text: &[u8], place: usize, length: usize) -> &[u8] {
    if place <= text.len() && length <= text.len() - place {
        return &text[place..place + length];
    }
    text
}

// What a row or a text has from a place on; all of it where there is no such place.
pub fn behind<T>(items: &[T], place: usize) -> &[T] {
    items.get(place..).unwrap_or(items)
}

pub fn set(row: &mut [u32], at: usize, value: u32) {
    if let Some(entry) = row.get_mut(at) {
        *entry = value;
    }
}

// As many entries as both rows have.
pub fn copy(from: &[u32], to: &mut [u32]) {
    for (entry, value) in to.iter_mut().zip(from) {
        *entry = *value;
    }
}

pub fn expect_kept<T: Copy + Eq>(items: &[T], rubbish: T) {
    if items.iter().any(|item| *item != rubbish) {
        put(b" CHANGED");
    }
}

// A row that a call was to fill: printed where it was accepted, and still rubbish where it was turned down.
pub fn show_filled(code: Code, name: &[u8], row: &[u32]) {
    if is_accepted(code.number) {
        put_row(name, row);
    } else {
        expect_kept(row, RUBBISH);
    }
}

// A buffer that a call was to write to from a place on: still rubbish before the place and after the text where it was accepted, and
// everywhere where it was turned down.
pub fn expect_around(code: Code, text: &[u8], place: usize) {
    let length = code.first as usize;
    if !is_accepted(code.number) {
        expect_kept(text, RUBBISH_BYTE);
        return;
    }
    expect_kept(part(text, 0, place), RUBBISH_BYTE);
    expect_kept(behind(behind(text, place), length), RUBBISH_BYTE);
}

// The same, and the bytes that were written must be the expected ones.
pub fn expect_written(code: Code, text: &[u8], place: usize, expected: &[u8]) {
    expect_around(code, text, place);
    let length = code.first as usize;
    if is_accepted(code.number) {
        if part(text, place, length) == expected {
            put(b" same");
        } else {
            put(b" OTHER");
        }
    }
}
