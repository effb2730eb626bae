// Runs the examples of documents 01 and 02 and of the report and prints what every call answers, with the rows and texts that it filled; the
// file stdout has what they must be. An example is a line `kind name length`, then that many bytes of sheet, then an end byte. Its kind says
// what is run: `read` the reader; `day` every call for the sheet's day, but for the forecast and the growing plan; `odds` the forecast plan;
// `growth` the growing plan; `text` a plan text read back; `factors` some rows of the table of factors, with no sheet; `lengths` every call
// with rows of other lengths; `values`
// every call for days in memory that differ from the sheet's in a value or a length; `unfit` the reader with rows of other lengths;
// `program` the text that the program writes.
// What a call changed though it had to leave it is reported as `CHANGED`, and a text that is not the expected one as `OTHER`.
#![tactic(auto)]

mod back;
mod calls;
mod factors;
mod forecasts;
mod growing;
mod input;
mod plans;
mod refused;
mod rows;
mod sheets;
mod show;

use input::{Kind, size_at, word_end};
use rows::{RUBBISH_BYTE, TEXT_ROOM, behind, part};
use show::{put, put_number};

// Room for all examples: more bytes than they have.
const BEYOND: usize = 131072;

// The text that the program writes for the first bytes of a buffer. It is the same where the buffer ends with them and the count goes
// beyond it; a text's buffer that is a byte too short gives no text.
fn run_program(input: &[u8], read: usize) {
    let mut space = [RUBBISH_BYTE; TEXT_ROOM];
    let mut other_space = [RUBBISH_BYTE; TEXT_ROOM];
    let mut short_space = [RUBBISH_BYTE; TEXT_ROOM - 1];
    let text = program::answer(input, read, &mut space);
    let other = program::answer(part(input, 0, read), BEYOND, &mut other_space);
    let none = program::answer(input, read, &mut short_space);
    put_number(b" bytes ", text.len() as u64);
    put_number(b" short text ", none.len() as u64);
    if text != other {
        put(b" OTHER");
    }
    put(b"\n");
    put(text);
}

fn run_kind(kind: Kind, input: &[u8], length: usize) {
    match kind {
        Kind::Program => run_program(input, length),
        Kind::Factors => factors::show_factors(),
        Kind::Text => back::run_text(kind, part(input, 0, length)),
        Kind::Unfit => sheets::run_reader(part(input, 0, length)),
        _ => sheets::run_sheet(kind, part(input, 0, length), b""),
    }
}

// One example from `at` on; where the next one begins.
fn run_example(input: &[u8], at: usize) -> usize {
    let kind_end = word_end(input, at);
    if input.len() <= kind_end {
        return kind_end;
    }
    let name_end = word_end(input, kind_end + 1);
    if input.len() <= name_end {
        return name_end;
    }
    put(part(input, at, name_end - at));
    let size = size_at(input, name_end + 1);
    let length = size.value;
    let start = size.end + 1;
    run_kind(Kind::from(input[at]), behind(input, start), length);
    put(b"\n");
    start + length + 1
}

// At most two hundred examples.
fn run_all(input: &[u8]) {
    let mut at = 0;
    for _ in 0..200 {
        if at < input.len() {
            at = run_example(input, at);
        }
    }
}

fn main() {
    let mut space = [0; BEYOND];
    let read = io::read_full(0, &mut space);
    run_all(&space[0..read]);
}
