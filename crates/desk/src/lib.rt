// The core for other languages: each call hands its rows to the core's call and gives the answer in the numbers of documents 01 and 02.
// The crate desk_c exports them; include/hold_desk.h documents them for C. Kept: two rows and a number in each, since C hands a day over so.
#![tactic(auto)]

ghost use Rattle.std.specs.Prelude.{◌≡◌, true};
ghost use Rattle.answers.specs.Answers.{code_of};
ghost use Rattle.answers.specs.Decides.{Decides};
ghost use Rattle.day.specs.Day.{lent, valid};
ghost use Rattle.day.specs.Plan.{Cheapest, Accepted};
ghost use Rattle.sheet.specs.Sheet.{reading, capacities_after, flights_after};
ghost use Rattle.sheet_writer.specs.Write.{write_answer, write_after};
ghost use Rattle.quick_plan.specs.Calls.{quick_plan};
ghost use Rattle.growth_plan.specs.Growing.{growth_plan};
ghost use Rattle.period_card.specs.PeriodCard.{period_card};
ghost use Rattle.choice.specs.Choice.{choice};
ghost use Rattle.board.specs.Board.{board_answer, board_after};
ghost use Rattle.plan_text.specs.PlanText.{plan_text_answer, plan_text_after};
ghost use Rattle.forecast_plan.specs.Forecast.{forecasts};
ghost use Rattle.forecast_plan.specs.Calls.{forecast_plan};
ghost use Rattle.desk.specs.Desk.{row_number, done_code, reading_code, card_code, Exported, ReadExported};

use answers::{Code, code_of};
use choice::Which;
use day::LentDay;

#[repr(C)]
#[derive(Clone, Copy)]
pub struct CardCode {
    pub number: u64,
    pub first: u64,
    pub second: u64,
    pub low: u64,
    pub high: u64,
    pub size: u64,
}

#[repr(C)]
#[derive(Clone, Copy)]
pub struct ReadingCode {
    pub number: u64,
    pub first: u64,
    pub second: u64,
    pub closing: u64,
}

pub fn hold_desk_read_sheet(
    sheet: &[u8],
    capacities: &mut [u32],
    flights: &mut [u32],
) -> ReadingCode
    ensures value { result ≡ reading_code (reading sheet.now capacities.old flights.old) }
    ensures capacities_after { capacities.new ≡ capacities_after (reading sheet.now capacities.old flights.old) capacities.old }
    ensures flights_after { flights.new ≡ flights_after (reading sheet.now capacities.old flights.old) flights.old }
{
    match sheet_reader::read_sheet(sheet, capacities, flights) {
        Ok(read) => ReadingCode {
            number: 0,
            first: read.periods as u64,
            second: read.flights as u64,
            closing: read.closing as u64,
        },
        Err(refusal) => {
            let code = Code::from(refusal);
            ReadingCode {
                number: code.number,
                first: code.first,
                second: code.second,
                closing: 0,
            }
        }
    }
}

pub fn hold_desk_write_sheet(
    capacities: &[u32],
    flights: &[u32],
    closing: u32,
    text: &mut [u8],
    place: usize,
) -> Code
    ensures value { result ≡ code_of (write_answer (lent capacities.entry flights.entry closing) text.old place) }
    ensures text_after { text.new ≡ write_after (lent capacities.entry flights.entry closing) text.old place }
{
    let day = LentDay {
        capacities,
        flights,
        closing,
    };
    code_of(sheet_writer::write_sheet(day, text, place))
}

pub fn hold_desk_quick_plan(
    capacities: &[u32],
    flights: &[u32],
    closing: u32,
    holds: &mut [u32],
) -> Code
    ensures value { result ≡ code_of (quick_plan (lent capacities.entry flights.entry closing) holds.old).answer }
    ensures holds_after { holds.new ≡ (quick_plan (lent capacities.entry flights.entry closing) holds.old).holds }
{
    let day = LentDay {
        capacities,
        flights,
        closing,
    };
    code_of(quick_plan::quick_plan(day, holds))
}

pub fn hold_desk_growth_plan(
    capacities: &[u32],
    flights: &[u32],
    closing: u32,
    growth: u32,
    holds: &mut [u32],
) -> Code
    ensures value { result ≡ code_of (growth_plan growth (lent capacities.entry flights.entry closing) holds.old).answer }
    ensures holds_after { holds.new ≡ (growth_plan growth (lent capacities.entry flights.entry closing) holds.old).holds }
{
    let day = LentDay {
        capacities,
        flights,
        closing,
    };
    code_of(growth_plan::growth_plan(day, growth, holds))
}

pub fn hold_desk_period_card(
    capacities: &[u32],
    flights: &[u32],
    closing: u32,
    period: u32,
) -> CardCode
    ensures { result ≡ card_code (period_card (lent capacities.entry flights.entry closing) period) }
{
    let day = LentDay {
        capacities,
        flights,
        closing,
    };
    match period_card::period_card(day, period) {
        Ok(card) => CardCode {
            number: 0,
            first: 0,
            second: 0,
            low: card.low,
            high: card.high,
            size: card.size as u64,
        },
        Err(refusal) => {
            let Code {
                number,
                first,
                second,
            } = Code::from(refusal);
            CardCode {
                number,
                first,
                second,
                low: 0,
                high: 0,
                size: 0,
            }
        }
    }
}

pub fn hold_desk_full_plan(
    capacities: &[u32],
    flights: &[u32],
    closing: u32,
    holds: &mut [u32],
    prices: &mut [u32],
) -> Code
    ensures { Exported (lent capacities.entry flights.entry closing) result holds.old prices.old holds.new prices.new }
{
    let day = LentDay {
        capacities,
        flights,
        closing,
    };
    code_of(full_plan::full_plan(day, holds, prices))
}

pub fn hold_desk_price_check(
    capacities: &[u32],
    flights: &[u32],
    closing: u32,
    holds: &[u32],
    prices: &[u32],
) -> bool
    ensures exact { Decides result ((valid (lent capacities.entry flights.entry closing) ≡ true) × Accepted (lent capacities.entry flights.entry closing) holds.now prices.now) }
    ensures cheapest { result ≡ true → Cheapest (lent capacities.entry flights.entry closing) holds.now }
{
    let day = LentDay {
        capacities,
        flights,
        closing,
    };
    price_check::price_check(day, holds, prices)
}

pub fn hold_desk_choice(
    capacities: &[u32],
    flights: &[u32],
    closing: u32,
    first: &[u32],
    second: &[u32],
) -> u32
    ensures { result ≡ row_number (choice (lent capacities.entry flights.entry closing) first.now second.now) }
{
    let day = LentDay {
        capacities,
        flights,
        closing,
    };
    match choice::which_row(day, first, second) {
        Some(Which::First) => 1,
        Some(Which::Second) => 2,
        None => 0,
    }
}

pub fn hold_desk_board(
    capacities: &[u32],
    flights: &[u32],
    closing: u32,
    holds: &[u32],
    board: &mut [u32],
) -> Code
    ensures value { result ≡ done_code (board_answer (lent capacities.entry flights.entry closing) holds.now board.old) }
    ensures board_after { board.new ≡ board_after (lent capacities.entry flights.entry closing) holds.now board.old }
{
    let day = LentDay {
        capacities,
        flights,
        closing,
    };
    match board::make_board(day, holds, board) {
        Ok(()) => Code::accepted(0, 0),
        Err(refusal) => Code::from(refusal),
    }
}

pub fn hold_desk_plan_text(
    capacities: &[u32],
    flights: &[u32],
    closing: u32,
    holds: &[u32],
    text: &mut [u8],
    place: usize,
) -> Code
    ensures value { result ≡ code_of (plan_text_answer (lent capacities.entry flights.entry closing) holds.now text.old place) }
    ensures text_after { text.new ≡ plan_text_after (lent capacities.entry flights.entry closing) holds.now text.old place }
{
    let day = LentDay {
        capacities,
        flights,
        closing,
    };
    code_of(plan_text::write_plan(day, holds, text, place))
}

pub fn hold_desk_read_plan(
    capacities: &[u32],
    flights: &[u32],
    closing: u32,
    text: &[u8],
    holds: &mut [u32],
) -> Code
    ensures { ReadExported (lent capacities.entry flights.entry closing) text.now result holds.old holds.new }
{
    let day = LentDay {
        capacities,
        flights,
        closing,
    };
    code_of(plan_reader::read_plan(day, text, holds))
}

pub fn hold_desk_forecast_plan(
    capacities: &[u32],
    flights: &[u32],
    closing: u32,
    count: u32,
    factor: u32,
    weights: &[u32],
    rows: &[u32],
    holds: &mut [u32],
) -> Code
    ensures value { result ≡ code_of (forecast_plan (lent capacities.entry flights.entry closing) (forecasts count factor weights.entry rows.entry) holds.old).answer }
    ensures holds_after { holds.new ≡ (forecast_plan (lent capacities.entry flights.entry closing) (forecasts count factor weights.entry rows.entry) holds.old).holds }
{
    let day = LentDay {
        capacities,
        flights,
        closing,
    };
    code_of(forecast_plan::forecast_plan(day, count, factor, weights, rows, holds))
}
