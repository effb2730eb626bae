// Some rows of the table of factors: what each further period of hold costs, in millionths of the rate.
use crate::show::{put_number, put_row};

// ` growth tenths:`, then the six factors, t from 0 to 5; the file stdout has them worked out by hand.
pub fn show_factors() {
    let factors = growth::factor_table();
    for tenths in [0, 1, 5, 10, 25, 40] {
        if let Some(row) = factors.get(tenths) {
            put_number(b"\n growth ", tenths as u64);
            put_row(b":", row);
        }
    }
}
