// Each call of the core with rows and buffers of its own, its answer printed, and all that it was lent printed or compared.
use crate::rows::{
    MORE_FLIGHTS, MORE_PRICES, RUBBISH, RUBBISH_BYTE, TEXT_ROOM, expect_around, expect_written,
    front_mut, show_filled,
};
use crate::show::{put_code, put_number};
use day::LentDay;

pub fn quick_plan(day: LentDay, count: usize) {
    let mut space = [RUBBISH; MORE_FLIGHTS];
    let holds = front_mut(&mut space, count);
    let code = desk::hold_desk_quick_plan(day.capacities, day.flights, day.closing, holds);
    put_code(b" quick ", code);
    show_filled(code, b" holds", holds);
}

// Into rows that are used again.
pub fn full_plan(day: LentDay, holds: &mut [u32], prices: &mut [u32]) {
    let code = desk::hold_desk_full_plan(day.capacities, day.flights, day.closing, holds, prices);
    put_code(b" full ", code);
    show_filled(code, b" holds", holds);
    show_filled(code, b" prices", prices);
}

pub fn full_plan_of(day: LentDay, count: usize, periods: usize) {
    let mut hold_space = [RUBBISH; MORE_FLIGHTS];
    let mut price_space = [RUBBISH; MORE_PRICES];
    full_plan(
        day,
        front_mut(&mut hold_space, count),
        front_mut(&mut price_space, periods),
    );
}

pub fn price_check(day: LentDay, holds: &[u32], prices: &[u32]) {
    let yes = desk::hold_desk_price_check(day.capacities, day.flights, day.closing, holds, prices);
    put_number(b" check ", yes as u64);
}

pub fn choice(day: LentDay, first: &[u32], second: &[u32]) {
    let row = desk::hold_desk_choice(day.capacities, day.flights, day.closing, first, second);
    put_number(b" choice ", u64::from(row));
}

pub fn board(day: LentDay, holds: &[u32], count: usize) {
    let mut space = [RUBBISH; MORE_FLIGHTS];
    let places = front_mut(&mut space, count);
    let code = desk::hold_desk_board(day.capacities, day.flights, day.closing, holds, places);
    put_code(b" board ", code);
    show_filled(code, b" places", places);
}

// ` card period: number,first,second low high size`
pub fn card(day: LentDay, period: u32) {
    let card = desk::hold_desk_period_card(day.capacities, day.flights, day.closing, period);
    put_number(b" card ", u64::from(period));
    put_number(b": ", card.number);
    put_number(b",", card.first);
    put_number(b",", card.second);
    put_number(b" ", card.low);
    put_number(b" ", card.high);
    put_number(b" ", card.size);
}

pub fn plan_text(day: LentDay, holds: &[u32], place: usize) {
    let mut text = [RUBBISH_BYTE; TEXT_ROOM];
    let code = desk::hold_desk_plan_text(
        day.capacities,
        day.flights,
        day.closing,
        holds,
        &mut text,
        place,
    );
    put_code(b" text ", code);
    expect_around(code, &text, place);
}

pub fn plan_text_at(day: LentDay, holds: &[u32], place: usize, expected: &[u8]) {
    let mut text = [RUBBISH_BYTE; TEXT_ROOM];
    let code = desk::hold_desk_plan_text(
        day.capacities,
        day.flights,
        day.closing,
        holds,
        &mut text,
        place,
    );
    put_number(b" at ", place as u64);
    put_code(b": ", code);
    expect_written(code, &text, place, expected);
}

pub fn sheet_text(day: LentDay, place: usize) {
    let mut text = [RUBBISH_BYTE; TEXT_ROOM];
    let code = desk::hold_desk_write_sheet(
        day.capacities,
        day.flights,
        day.closing,
        &mut text,
        place,
    );
    put_code(b" sheet ", code);
    expect_around(code, &text, place);
}

pub fn sheet_text_at(day: LentDay, place: usize, expected: &[u8]) {
    let mut text = [RUBBISH_BYTE; TEXT_ROOM];
    let code = desk::hold_desk_write_sheet(
        day.capacities,
        day.flights,
        day.closing,
        &mut text,
        place,
    );
    put_number(b" at ", place as u64);
    put_code(b": ", code);
    expect_written(code, &text, place, expected);
}
