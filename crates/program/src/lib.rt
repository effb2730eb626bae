// What the program does between reading and writing: of the bytes of a day sheet, the text of its full plan or of its refusal.
#![tactic(auto)]

ghost use Rattle.std.specs.Prelude.{◌≡◌, true, ◌+◌, ◌*◌, ◌≤◌, length, take};
ghost use Rattle.day.specs.Day.{lent, day, width, counted, N, valid};
ghost use Rattle.day.specs.Checked.{lent_day};
ghost use Rattle.day.specs.Plan.{Legal};
ghost use Rattle.plan_text.specs.PlanText.{plan_text};
ghost use Rattle.program.specs.Program.{Front, refusal_of, PrintsDay, InRows, Prints, Answered};

use answers::{Code, Refusal};
use day::{FLIGHT_ROW, FLIGHTS, LentDay, PERIODS, WIDTH, counted_of};
use sheet::SheetRead;

// Every answer fits this many bytes.
const ROOM: usize = 4096;

// A price for each period and, with a closing line, one for the closing period.
const PRICES: usize = PERIODS + 1;

// The two lines of a refusal, at the front of the text; how many bytes.
fn put_refusal(refusal: Refusal, text: &mut [u8]) -> usize
    requires { 4096 ≤ length text.old }
    ensures { Front text.new result (refusal_of refusal) }
{
    let code = Code::from(refusal);
    let number = code.number as usize;
    let first = code.first as usize;
    let second = code.second as usize;
    text::write_refusal(number, first, second, text).unwrap()
}

// The text of a legal plan, at the front of the text; how many bytes.
fn put_plan(day: LentDay, holds: &[u32], text: &mut [u8]) -> usize
    requires { (valid (lent_day day) ≡ true) × Legal (lent_day day) holds.now × (4096 ≤ length text.old) }
    ensures { Front text.new result (plan_text day.entry.flights.now holds.now) }
{
    plan_text::write_plan(day, holds, text, 0).unwrap()
}

// The full plan of a valid day, or the stretch that leaves none, at the front of the text; how many bytes. Kept: a lent day and a clause,
// since the two calls below take a day before its check.
fn plan_day(day: LentDay, holds: &mut [u32], prices: &mut [u32], text: &mut [u8]) -> usize
    requires { (valid (lent_day day) ≡ true) × (length holds.old ≡ N (lent_day day)) × (length prices.old ≡ counted (lent_day day)) × (4096 ≤ length text.old) }
    ensures { (result ≤ length text.new) × PrintsDay (lent_day day.entry) (take result text.new) }
{
    match full_plan::full_plan(day, holds, prices) {
        Ok(_) => put_plan(day, holds, text),
        Err(refusal) => put_refusal(refusal, text),
    }
}

// The same for a sheet's day that was read into the front of two rows, with a hold row and a price row of its own. Kept: two
// rows, since they are longer than the day.
fn plan_rows(read: SheetRead, capacities: &[u32], flights: &[u32], text: &mut [u8]) -> usize
    requires { InRows read.periods read.flights read.closing capacities.now flights.now × (4096 ≤ length text.old) }
    ensures { (result ≤ length text.new) × PrintsDay (day (take read.periods capacities.now) (take (read.flights * width) flights.now) read.closing) (take result text.new) }
{
    let day = LentDay {
        capacities: &capacities[..read.periods],
        flights: &flights[..read.flights * WIDTH],
        closing: read.closing,
    };
    let mut holds = [0; FLIGHTS];
    let mut prices = [0; PRICES];
    let priced = counted_of(read.periods, read.closing);
    plan_day(day, &mut holds[..read.flights], &mut prices[..priced], text)
}

// The answer to a sheet, at the front of the text; how many bytes.
fn answer_sheet(sheet: &[u8], text: &mut [u8]) -> usize
    requires { 4096 ≤ length text.old }
    ensures { (result ≤ length text.new) × Prints sheet.now (take result text.new) }
{
    let mut capacities = [0; PERIODS];
    let mut flights = [0; FLIGHT_ROW];
    match sheet_reader::read_sheet(sheet, &mut capacities, &mut flights) {
        Ok(read) => plan_rows(read, &capacities, &flights, text),
        Err(refusal) => put_refusal(refusal, text),
    }
}

// The bytes that were read into a buffer; a count beyond the buffer is the whole buffer.
fn read_part(input: &[u8], read: usize) -> &[u8]
    ensures { result.now ≡ take read input.now }
{
    &input[..read.min(input.len())]
}

// The bytes that the program writes, as the front part of the lent text: the answer to the sheet of which `read` bytes were read into
// the buffer. A text without room for every answer gives its empty front part.
pub fn answer<'a>(input: &[u8], read: usize, text: &'a mut [u8]) -> &'a [u8]
    ensures answered { Answered input.now read (length text.old) result.now }
    ensures same_text { result.ref_ptr ≡ text.entry.ref_ptr }
{
    if text.len() < ROOM {
        return &text[..0];
    }
    let length = answer_sheet(read_part(input, read), text);
    &text[..length]
}
