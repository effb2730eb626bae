// The static library for other languages: each export is the core's call of its name (crate desk), with the same clauses.
// include/hold_desk.h documents them for C.
// Kept: twins of the functions of crate desk, since C needs them in a static library, and no crate may use one: crate examples calls desk.
#![tactic(auto)]

ghost use Rattle.std.specs.Prelude.{◌≡◌, true};
ghost use Rattle.answers.specs.Answers.{code_of};
ghost use Rattle.answers.specs.Decides.{Decides};
ghost use Rattle.day.specs.Day.{lent, valid};
ghost use Rattle.day.specs.Plan.{Cheapest, Accepted};
ghost use Rattle.sheet.specs.Sheet.{reading, capacities_after, flights_after};
ghost use Rattle.sheet_writer.specs.Write.{write_answer, write_after};
ghost use Rattle.quick_plan.specs.Calls.{quick_plan};
ghost use Rattle.growth_plan.specs.Growing.{growth_plan};
ghost use Rattle.period_card.specs.PeriodCard.{period_card};
ghost use Rattle.choice.specs.Choice.{choice};
ghost use Rattle.board.specs.Board.{board_answer, board_after};
ghost use Rattle.plan_text.specs.PlanText.{plan_text_answer, plan_text_after};
ghost use Rattle.forecast_plan.specs.Forecast.{forecasts};
ghost use Rattle.forecast_plan.specs.Calls.{forecast_plan};
ghost use Rattle.desk.specs.Desk.{row_number, done_code, reading_code, card_code, Exported, ReadExported};

use answers::Code;
use desk::{CardCode, ReadingCode};

#[unsafe(no_mangle)]
pub extern "C" fn hold_desk_read_sheet(
    sheet: &[u8],
    capacities: &mut [u32],
    flights: &mut [u32],
) -> ReadingCode
    ensures value { result ≡ reading_code (reading sheet.now capacities.old flights.old) }
    ensures capacities_after { capacities.new ≡ capacities_after (reading sheet.now capacities.old flights.old) capacities.old }
    ensures flights_after { flights.new ≡ flights_after (reading sheet.now capacities.old flights.old) flights.old }
{
    desk::hold_desk_read_sheet(sheet, capacities, flights)
}

#[unsafe(no_mangle)]
pub extern "C" fn hold_desk_write_sheet(
    capacities: &[u32],
    flights: &[u32],
    closing: u32,
    text: &mut [u8],
    place: usize,
) -> Code
    ensures value { result ≡ code_of (write_answer (lent capacities.entry flights.entry closing) text.old place) }
    ensures text_after { text.new ≡ write_after (lent capacities.entry flights.entry closing) text.old place }
{
    desk::hold_desk_write_sheet(capacities, flights, closing, text, place)
}

#[unsafe(no_mangle)]
pub extern "C" fn hold_desk_quick_plan(
    capacities: &[u32],
    flights: &[u32],
    closing: u32,
    holds: &mut [u32],
) -> Code
    ensures value { result ≡ code_of (quick_plan (lent capacities.entry flights.entry closing) holds.old).answer }
    ensures holds_after { holds.new ≡ (quick_plan (lent capacities.entry flights.entry closing) holds.old).holds }
{
    desk::hold_desk_quick_plan(capacities, flights, closing, holds)
}

#[unsafe(no_mangle)]
pub extern "C" fn hold_desk_growth_plan(
    capacities: &[u32],
    flights: &[u32],
    closing: u32,
    growth: u32,
    holds: &mut [u32],
) -> Code
    ensures value { result ≡ code_of (growth_plan growth (lent capacities.entry flights.entry closing) holds.old).answer }
    ensures holds_after { holds.new ≡ (growth_plan growth (lent capacities.entry flights.entry closing) holds.old).holds }
{
    desk::hold_desk_growth_plan(capacities, flights, closing, growth, holds)
}

#[unsafe(no_mangle)]
pub extern "C" fn hold_desk_period_card(
    capacities: &[u32],
    flights: &[u32],
    closing: u32,
    period: u32,
) -> CardCode
    ensures { result ≡ card_code (period_card (lent capacities.entry flights.entry closing) period) }
{
    desk::hold_desk_period_card(capacities, flights, closing, period)
}

#[unsafe(no_mangle)]
pub extern "C" fn hold_desk_full_plan(
    capacities: &[u32],
    flights: &[u32],
    closing: u32,
    holds: &mut [u32],
    prices: &mut [u32],
) -> Code
    ensures { Exported (lent capacities.entry flights.entry closing) result holds.old prices.old holds.new prices.new }
{
    desk::hold_desk_full_plan(capacities, flights, closing, holds, prices)
}

#[unsafe(no_mangle)]
pub extern "C" fn hold_desk_price_check(
    capacities: &[u32],
    flights: &[u32],
    closing: u32,
    holds: &[u32],
    prices: &[u32],
) -> bool
    ensures exact { Decides result ((valid (lent capacities.entry flights.entry closing) ≡ true) × Accepted (lent capacities.entry flights.entry closing) holds.now prices.now) }
    ensures cheapest { result ≡ true → Cheapest (lent capacities.entry flights.entry closing) holds.now }
{
    desk::hold_desk_price_check(capacities, flights, closing, holds, prices)
}

#[unsafe(no_mangle)]
pub extern "C" fn hold_desk_choice(
    capacities: &[u32],
    flights: &[u32],
    closing: u32,
    first: &[u32],
    second: &[u32],
) -> u32
    ensures { result ≡ row_number (choice (lent capacities.entry flights.entry closing) first.now second.now) }
{
    desk::hold_desk_choice(capacities, flights, closing, first, second)
}

#[unsafe(no_mangle)]
pub extern "C" fn hold_desk_board(
    capacities: &[u32],
    flights: &[u32],
    closing: u32,
    holds: &[u32],
    board: &mut [u32],
) -> Code
    ensures value { result ≡ done_code (board_answer (lent capacities.entry flights.entry closing) holds.now board.old) }
    ensures board_after { board.new ≡ board_after (lent capacities.entry flights.entry closing) holds.now board.old }
{
    desk::hold_desk_board(capacities, flights, closing, holds, board)
}

#[unsafe(no_mangle)]
pub extern "C" fn hold_desk_plan_text(
    capacities: &[u32],
    flights: &[u32],
    closing: u32,
    holds: &[u32],
    text: &mut [u8],
    place: usize,
) -> Code
    ensures value { result ≡ code_of (plan_text_answer (lent capacities.entry flights.entry closing) holds.now text.old place) }
    ensures text_after { text.new ≡ plan_text_after (lent capacities.entry flights.entry closing) holds.now text.old place }
{
    desk::hold_desk_plan_text(capacities, flights, closing, holds, text, place)
}

#[unsafe(no_mangle)]
pub extern "C" fn hold_desk_read_plan(
    capacities: &[u32],
    flights: &[u32],
    closing: u32,
    text: &[u8],
    holds: &mut [u32],
) -> Code
    ensures { ReadExported (lent capacities.entry flights.entry closing) text.now result holds.old holds.new }
{
    desk::hold_desk_read_plan(capacities, flights, closing, text, holds)
}

#[unsafe(no_mangle)]
pub extern "C" fn hold_desk_forecast_plan(
    capacities: &[u32],
    flights: &[u32],
    closing: u32,
    count: u32,
    factor: u32,
    weights: &[u32],
    rows: &[u32],
    holds: &mut [u32],
) -> Code
    ensures value { result ≡ code_of (forecast_plan (lent capacities.entry flights.entry closing) (forecasts count factor weights.entry rows.entry) holds.old).answer }
    ensures holds_after { holds.new ≡ (forecast_plan (lent capacities.entry flights.entry closing) (forecasts count factor weights.entry rows.entry) holds.old).holds }
{
    desk::hold_desk_forecast_plan(
        capacities, flights, closing, count, factor, weights, rows, holds,
    )
}
