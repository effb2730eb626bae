// Day sheets: the values of a flight line and of a period line. The grammar, the text of a day and the round trips stand in specs/ and proofs/.
#![tactic(auto)]

use day::Flight;

// A period line read: its values and the place behind it.
#[derive(Clone, Copy)]
pub struct PeriodLine {
    pub number: u32,
    pub capacity: u32,
    pub next: usize,
}

// A flight line read: its flight and the place behind it.
#[derive(Clone, Copy)]
pub struct FlightLine {
    pub flight: Flight,
    pub next: usize,
}

// What is known of a sheet that was read: how many periods and flights its day has, and the day's closing number.
#[derive(Clone, Copy)]
pub struct SheetRead {
    pub periods: usize,
    pub flights: usize,
    pub closing: u32,
}

// The most digits of a number in a sheet.
pub const DIGITS: usize = 7;

// A missing limit.
pub const DASH: u8 = b'-';

// The first names line.
pub const PERIOD_NAMES: &[u8] = b"period,capacity\n";

pub const PERIOD_NAMES_LEN: usize = PERIOD_NAMES.len();

// The second names line.
pub const FLIGHT_NAMES: &[u8] = b"flight,due,rate,after,jump,limit,late\n";

pub const FLIGHT_NAMES_LEN: usize = FLIGHT_NAMES.len();

// What the closing line begins with.
pub const CLOSING_NAME: &[u8] = b"closing,";

pub const CLOSING_NAME_LEN: usize = CLOSING_NAME.len();
