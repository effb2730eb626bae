// Plan texts read back. The bytes of such an example are the length of a sheet, a space, the sheet, and the text.
use crate::input::{Kind, size_at};
use crate::rows::{MORE_FLIGHTS, RUBBISH, behind, front_mut, part, show_filled};
use crate::sheets::run_sheet;
use crate::show::put_code;
use day::LentDay;

// ` back number,first,second`, then the holds
pub fn read_back(day: LentDay, text: &[u8], count: usize) {
    let mut space = [RUBBISH; MORE_FLIGHTS];
    let holds = front_mut(&mut space, count);
    let code = desk::hold_desk_read_plan(day.capacities, day.flights, day.closing, text, holds);
    put_code(b" back ", code);
    show_filled(code, b" holds", holds);
}

pub fn run_text(kind: Kind, bytes: &[u8]) {
    let size = size_at(bytes, 0);
    let length = size.value;
    let rest = behind(bytes, size.end + 1);
    run_sheet(kind, part(rest, 0, length), behind(rest, length));
}
