// The growing plan of a day with one growth after another, and what turns it down.
use crate::rows::{MORE_FLIGHTS, RUBBISH, front_mut, show_filled};
use crate::show::{put, put_code, put_number};
use day::LentDay;

// ` growth tenths: number,first,second`, then the holds
pub fn growth_plan(day: LentDay, growth: u32, count: usize) {
    let mut space = [RUBBISH; MORE_FLIGHTS];
    let holds = front_mut(&mut space, count);
    let code = desk::hold_desk_growth_plan(day.capacities, day.flights, day.closing, growth, holds);
    put_number(b" growth ", u64::from(growth));
    put_code(b": ", code);
    show_filled(code, b" holds", holds);
}

// None, little and more of it, the greatest, and growths that are refused; then a hold row of another length, which is refused first.
pub fn run_growths(day: LentDay) {
    let count = day::flight_count(day.flights);
    for growth in [0, 1, 2, 3, 5, 40, 41, u32::MAX] {
        put(b"\n");
        growth_plan(day, growth, count);
    }
    put(b"\n hold row of 129:");
    growth_plan(day, 41, 129);
}
