// Calls that are turned down for what they are lent: rows of other lengths, hold rows that are not legal, and days in memory with a
// length or a value that no day has. Every call is run in each of these cases, so that the order of the refusals shows.
use crate::back::read_back;
use crate::calls::{
    board, card, choice, full_plan_of, plan_text, price_check, quick_plan, sheet_text,
};
use crate::forecasts::forecast_plan_of;
use crate::growing::growth_plan;
use crate::rows::{
    LONGER_ROW, MORE_FLIGHTS, MORE_PERIODS, MORE_PRICES, NO_ROOM, RUBBISH, copy, front, front_mut,
    price_count, set,
};
use crate::show::{put, put_number};
use day::{Flight, LentDay, MISSING, WIDTH, put_flight};

// What a call is lent beside the day and a hold row: the lengths of a price and a board row, and the place in a text's buffer.
#[derive(Clone, Copy)]
struct Lent {
    prices: usize,
    board: usize,
    place: usize,
}

fn longer(length: usize) -> usize {
    length.saturating_add(1)
}

// One less; for an empty row another length.
fn shorter(length: usize) -> usize {
    length.checked_sub(1).unwrap_or(1)
}

// Every call. The card is asked for period 0, the growing plan for a growth of 41, and the text to be read back is none, which are
// refused last.
fn run_calls(day: LentDay, holds: &[u32], lent: Lent) {
    let prices = [RUBBISH; MORE_PRICES];
    quick_plan(day, holds.len());
    growth_plan(day, 41, holds.len());
    card(day, 0);
    full_plan_of(day, holds.len(), lent.prices);
    price_check(day, holds, front(&prices, lent.prices));
    choice(day, holds, holds);
    board(day, holds, lent.board);
    plan_text(day, holds, lent.place);
    read_back(day, b"total\n", holds.len());
    sheet_text(day, lent.place);
    forecast_plan_of(day, holds.len());
}

fn run_hold_rows(day: LentDay, plan: &[u32], count: usize) {
    let lent = Lent {
        prices: price_count(day),
        board: count,
        place: 0,
    };
    put(b"\n right lengths:");
    run_calls(day, front(plan, count), lent);
    put(b"\n hold row longer:");
    run_calls(day, front(plan, longer(count)), lent);
    put(b"\n hold row shorter:");
    run_calls(day, front(plan, shorter(count)), lent);
    put(b"\n hold row empty:");
    run_calls(day, front(plan, 0), lent);
}

fn run_other_rows(day: LentDay, plan: &[u32], count: usize) {
    let long = Lent {
        prices: longer(price_count(day)),
        board: longer(count),
        place: NO_ROOM,
    };
    let short = Lent {
        prices: shorter(price_count(day)),
        board: shorter(count),
        place: 0,
    };
    put(b"\n other rows longer, no room:");
    run_calls(day, front(plan, count), long);
    put(b"\n other rows shorter:");
    run_calls(day, front(plan, count), short);
    put(b"\n all rows longer, no room:");
    run_calls(day, front(plan, longer(count)), long);
}

// Everyone lands when due, which is not legal where a period has too few places.
fn run_when_due(day: LentDay, count: usize) {
    let zeros = [0; MORE_FLIGHTS];
    let due = front(&zeros, count);
    let fit = Lent {
        prices: price_count(day),
        board: count,
        place: 0,
    };
    let long = Lent {
        prices: longer(price_count(day)),
        board: longer(count),
        place: NO_ROOM,
    };
    put(b"\n when due:");
    run_calls(day, due, fit);
    put(b"\n when due, other rows longer, no room:");
    run_calls(day, due, long);
}

pub fn run_lengths(day: LentDay) {
    let count = day::flight_count(day.flights);
    let mut plan = [RUBBISH; MORE_FLIGHTS];
    let mut prices = [RUBBISH; MORE_PRICES];
    let planned = desk::hold_desk_full_plan(
        day.capacities,
        day.flights,
        day.closing,
        front_mut(&mut plan, count),
        front_mut(&mut prices, price_count(day)),
    );
    run_hold_rows(day, &plan, count);
    run_other_rows(day, &plan, count);
    run_when_due(day, count);
}

// Every call for a day in memory, with rows of the lengths that it asks; everyone lands when due.
fn run_memory(day: LentDay) {
    let zeros = [0; MORE_FLIGHTS];
    let count = day::flight_count(day.flights);
    let lent = Lent {
        prices: price_count(day),
        board: count,
        place: 0,
    };
    run_calls(day, front(&zeros, count), lent);
}

// The day with one number of its flight row changed.
fn run_changed(day: LentDay, at: usize, value: u32) {
    let mut space = [RUBBISH; LONGER_ROW];
    let row = front_mut(&mut space, day.flights.len());
    copy(day.flights, row);
    set(row, at, value);
    put_number(b"\n flight entry ", at as u64);
    put_number(b" is ", u64::from(value));
    put(b":");
    run_memory(LentDay {
        flights: row,
        ..day
    });
}

// The day with its flight row cut or lengthened; what is added is rubbish.
fn run_resized(day: LentDay, length: usize) {
    let mut space = [RUBBISH; LONGER_ROW];
    let row = front_mut(&mut space, length);
    copy(day.flights, row);
    put_number(b"\n flight row of ", length as u64);
    put(b" entries:");
    run_memory(LentDay {
        flights: row,
        ..day
    });
}

// The day with periods of one capacity, so and so many.
fn run_periods(day: LentDay, length: usize, capacity: u32) {
    let space = [capacity; MORE_PERIODS];
    put_number(b"\n capacity row of ", length as u64);
    put_number(b" entries ", u64::from(capacity));
    put(b":");
    run_memory(LentDay {
        capacities: front(&space, length),
        ..day
    });
}

// Flights numbered from 1 on, due 1 at rate 1.
fn run_129_flights(day: LentDay) {
    let mut flights = [RUBBISH; LONGER_ROW];
    for place in 0..MORE_FLIGHTS {
        let flight = Flight {
            number: place as u32 + 1,
            due: 1,
            rate: 1,
            after: 0,
            jump: 0,
            limit: MISSING,
            late: 0,
        };
        put_flight(&mut flights, place, flight);
    }
    put(b"\n 129 flights:");
    run_memory(LentDay {
        flights: &flights,
        ..day
    });
}

// A bad day comes before every row of another length, before a jump or a limit, and before a period that is none.
fn run_all_wrong(day: LentDay) {
    let mut space = [RUBBISH; LONGER_ROW];
    let row = front_mut(&mut space, day.flights.len());
    copy(day.flights, row);
    set(row, 0, 0);
    let zeros = [0; MORE_FLIGHTS];
    let count = longer(day::flight_count(day.flights));
    let lent = Lent {
        prices: longer(price_count(day)),
        board: count,
        place: NO_ROOM,
    };
    put(b"\n flight entry 0 is 0, all rows longer, no room:");
    let wrong = LentDay {
        flights: row,
        ..day
    };
    run_calls(wrong, front(&zeros, count), lent);
}

// The columns that name the flight and its due period, at the ends of their ranges and past them. The second flight gets the first one's
// number.
fn run_names(day: LentDay, number: u32) {
    for value in [0, 9999, 10000] {
        run_changed(day, 0, value);
    }
    run_changed(day, WIDTH, number);
    for value in [0, 2, 3] {
        run_changed(day, 1, value);
    }
}

// The columns of the cost, late among them, and the limit.
fn run_costs(day: LentDay) {
    let changes = [
        (2, 0),
        (2, 10000),
        (2, 10001),
        (3, 96),
        (3, 97),
        (4, 1000000),
        (4, 1000001),
        (5, 96),
        (5, 97),
        (5, 254),
        (5, 256),
        (6, 255),
        (6, 256),
    ];
    for (column, value) in changes {
        run_changed(day, column, value);
    }
}

// The day with other closing numbers: none may land in the closing period, as many as a line can say, everyone, and numbers that no day
// has.
fn run_closings(day: LentDay) {
    for closing in [0, 255, 256, 257, u32::MAX] {
        put_number(b"\n closing number ", u64::from(closing));
        put(b":");
        run_memory(LentDay { closing, ..day });
    }
}

// For a day of two periods.
pub fn run_values(day: LentDay) {
    if 0 < day.flights.len() {
        run_names(day, day.flights[0]);
    }
    run_costs(day);
    run_resized(day, shorter(day.flights.len()));
    run_resized(day, longer(day.flights.len()));
    for (length, capacity) in [(2, 255), (2, 256), (0, 1), (96, 1), (97, 1)] {
        run_periods(day, length, capacity);
    }
    run_129_flights(day);
    run_closings(day);
    run_all_wrong(day);
}
