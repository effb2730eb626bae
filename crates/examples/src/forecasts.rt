// The forecast plan of a day under two forecasts, each with one capacity for all periods, and what turns it down.
use crate::calls::board;
use crate::rows::{MORE_FLIGHTS, MORE_PERIODS, RUBBISH, copy, front, front_mut, show_filled};
use crate::show::{is_accepted, put, put_code, put_number};
use answers::Code;
use day::LentDay;

// The capacities of the two forecasts, their weights, how many forecasts there are said to be, and the air factor.
#[derive(Clone, Copy)]
struct Odds {
    first: u32,
    second: u32,
    weight: u32,
    other_weight: u32,
    count: u32,
    factor: u32,
}

// How many entries the rows have that the call is lent.
#[derive(Clone, Copy)]
struct Lengths {
    holds: usize,
    weights: usize,
    rows: usize,
}

// As many as it asks for.
fn asked(day: LentDay) -> Lengths {
    Lengths {
        holds: day::flight_count(day.flights),
        weights: 2,
        rows: day.capacities.len().saturating_mul(2),
    }
}

// The board of a plan; the day's own capacities may not allow it.
fn show_board(code: Code, day: LentDay, holds: &[u32]) {
    if is_accepted(code.number) {
        board(day, holds, holds.len());
    }
}

fn forecast_plan(day: LentDay, odds: Odds, lent: Lengths) {
    let mut hold_space = [RUBBISH; MORE_FLIGHTS];
    let holds = front_mut(&mut hold_space, lent.holds);
    let weights = [odds.weight, odds.other_weight, 0];
    let first = [odds.first; MORE_PERIODS];
    let mut rows = [odds.second; 2 * MORE_PERIODS];
    copy(front(&first, day.capacities.len()), &mut rows);
    let code = desk::hold_desk_forecast_plan(
        day.capacities,
        day.flights,
        day.closing,
        odds.count,
        odds.factor,
        front(&weights, lent.weights),
        front(&rows, lent.rows),
        holds,
    );
    put_code(b" forecasts ", code);
    show_filled(code, b" holds", holds);
    show_board(code, day, holds);
}

// As the report has it: capacity 1 or 2 by odds of 4 to 6, and an air factor of 2.
fn reported() -> Odds {
    Odds {
        first: 1,
        second: 2,
        weight: 400,
        other_weight: 600,
        count: 2,
        factor: 2,
    }
}

// Beside every other call, with a hold row of any length.
pub fn forecast_plan_of(day: LentDay, count: usize) {
    let mut lent = asked(day);
    lent.holds = count;
    forecast_plan(day, reported(), lent);
}

// ` capacities first second weights weight other_weight air factor:`, then the call
fn run_odds(day: LentDay, odds: Odds) {
    put_number(b"\n capacities ", u64::from(odds.first));
    put_number(b" ", u64::from(odds.second));
    put_number(b" weights ", u64::from(odds.weight));
    put_number(b" ", u64::from(odds.other_weight));
    put_number(b" count ", u64::from(odds.count));
    put_number(b" air factor ", u64::from(odds.factor));
    put(b":");
    forecast_plan(day, odds, asked(day));
}

fn run_plans(day: LentDay) {
    let turned = Odds {
        weight: 600,
        other_weight: 400,
        ..reported()
    };
    let sure = Odds {
        weight: 1000,
        other_weight: 0,
        ..reported()
    };
    let none_at_first = Odds { first: 0, ..sure };
    let even = Odds {
        weight: 500,
        other_weight: 500,
        factor: 1,
        ..none_at_first
    };
    let dear = Odds { factor: 10, ..even };
    let all_at_second = Odds {
        second: 255,
        ..dear
    };
    for odds in [
        reported(),
        turned,
        sure,
        none_at_first,
        even,
        dear,
        all_at_second,
    ] {
        run_odds(day, odds);
    }
}

// Refusal 13: the count and the air factor at the ends of their ranges and past them.
fn run_terms(day: LentDay) {
    for count in [0, 9, u32::MAX] {
        let odds = Odds {
            count,
            ..reported()
        };
        run_odds(day, odds);
    }
    for factor in [0, 11] {
        let odds = Odds {
            factor,
            ..reported()
        };
        run_odds(day, odds);
    }
}

// Refusal 12: weights that add up to less, to more, and to 1,000 in 32 bits only; a capacity that is too high, of a forecast that
// does not count.
fn run_forecasts_refused(day: LentDay) {
    let less = Odds {
        weight: 399,
        ..reported()
    };
    let more = Odds {
        weight: 401,
        ..reported()
    };
    let wrapped = Odds {
        weight: u32::MAX,
        other_weight: 1001,
        ..reported()
    };
    let too_high = Odds {
        weight: 1000,
        other_weight: 0,
        second: 256,
        ..reported()
    };
    for odds in [less, more, wrapped, too_high] {
        run_odds(day, odds);
    }
}

fn run_with(name: &[u8], day: LentDay, odds: Odds, lent: Lengths) {
    put(name);
    forecast_plan(day, odds, lent);
}

// Refusal 7 for each row, before 12 and behind 13, and the rows in their order.
fn run_row_lengths(day: LentDay) {
    let odds = reported();
    let mut wrong = odds;
    wrong.weight = 399;
    let mut lent = asked(day);
    lent.rows = 1;
    run_with(b"\n forecast row of 1, weights of 999:", day, wrong, lent);
    lent.weights = 3;
    run_with(b"\n besides, weight row of 3:", day, wrong, lent);
    lent.holds = 129;
    run_with(b"\n besides, hold row of 129:", day, wrong, lent);
    wrong.factor = 11;
    run_with(b"\n besides, air factor 11:", day, wrong, lent);
    lent = asked(day);
    lent.weights = 1;
    run_with(b"\n weight row of 1:", day, odds, lent);
}

pub fn run_forecasts(day: LentDay) {
    run_plans(day);
    run_terms(day);
    run_forecasts_refused(day);
    run_row_lengths(day);
}
