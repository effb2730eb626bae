// All that the core answers for a day: plans, prices, boards, cards and both texts.
ghost use Rattle.std.specs.Prelude.{◌≤◌};

use crate::back::read_back;
use crate::calls::{
    board, card, choice, full_plan, plan_text, plan_text_at, price_check, quick_plan, sheet_text_at,
};
use crate::rows::{
    MORE_FLIGHTS, MORE_PRICES, NO_ROOM, RUBBISH, RUBBISH_BYTE, TEXT_ROOM, expect_around, front,
    front_mut, part, price_count,
};
use crate::show::{is_accepted, put, put_code};
use day::{LentDay, UNLIMITED};

// A place beyond every buffer.
const FAR: usize = usize::MAX;

// The plan beside the row where everyone lands when due: which of the two is chosen, and the board of each.
fn run_choices(day: LentDay, holds: &[u32]) {
    let zeros = [0; MORE_FLIGHTS];
    let due = front(&zeros, holds.len());
    put(b"\n due, plan:");
    choice(day, due, holds);
    put(b" plan, due:");
    choice(day, holds, due);
    put(b" plan, plan:");
    choice(day, holds, holds);
    put(b"\n plan:");
    board(day, holds, holds.len());
    put(b"\n when due:");
    board(day, due, holds.len());
}

// Of a day with a closing line also the row where everyone is held for one period: the closing period may have too many.
fn run_later(day: LentDay, holds: &[u32]) {
    if day.closing < UNLIMITED {
        let ones = [1; MORE_FLIGHTS];
        let later = front(&ones, holds.len());
        put(b"\n a period later:");
        board(day, later, holds.len());
        plan_text(day, later, 0);
        choice(day, later, holds);
        choice(day, later, later);
    }
}

// Periods 0 to P + 1, and the largest number.
fn run_cards(day: LentDay) {
    put(b"\n");
    for period in 0..98 {
        if period as usize <= day.capacities.len() + 1 {
            card(day, period);
        }
    }
    card(day, u32::MAX);
}

// The last place of a text's buffer from which it has room.
fn last_place(length: usize) -> usize
    ensures { result ≤ 4096 }
{
    TEXT_ROOM.saturating_sub(length)
}

fn run_sheet_texts(day: LentDay, sheet: &[u8]) {
    let last = last_place(sheet.len());
    put(b"\n sheet");
    for place in [0, 7, last, last + 1, NO_ROOM, FAR] {
        sheet_text_at(day, place, sheet);
    }
}

fn run_plan_places(day: LentDay, holds: &[u32], text: &[u8]) {
    let last = last_place(text.len());
    put(b" text");
    for place in [7, last, last + 1, NO_ROOM, FAR] {
        plan_text_at(day, holds, place, text);
    }
}

// The text as it stands from place 0 on; then the same at other places, and read back.
fn run_plan_texts(day: LentDay, holds: &[u32]) {
    let mut space = [RUBBISH_BYTE; TEXT_ROOM];
    let code = desk::hold_desk_plan_text(
        day.capacities,
        day.flights,
        day.closing,
        holds,
        &mut space,
        0,
    );
    put_code(b"\n text ", code);
    expect_around(code, &space, 0);
    if !is_accepted(code.number) {
        return;
    }
    let length = code.first as usize;
    let text = part(&space, 0, length);
    put(b"\n");
    put(text);
    run_plan_places(day, holds, text);
    read_back(day, text, holds.len());
}

pub fn run_day(day: LentDay, sheet: &[u8]) {
    let count = day::flight_count(day.flights);
    let mut hold_space = [RUBBISH; MORE_FLIGHTS];
    let mut price_space = [RUBBISH; MORE_PRICES];
    let holds = front_mut(&mut hold_space, count);
    let prices = front_mut(&mut price_space, price_count(day));
    put(b"\n");
    quick_plan(day, count);
    put(b"\n");
    full_plan(day, holds, prices);
    price_check(day, holds, prices);
    run_choices(day, holds);
    run_later(day, holds);
    run_cards(day);
    run_sheet_texts(day, sheet);
    run_plan_texts(day, holds);
}
