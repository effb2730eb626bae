// The cheaper of two hold rows for a day, handed back itself.
#![tactic(auto)]

ghost use Rattle.std.specs.Prelude.{◌≡◌, []};
ghost use Rattle.day.specs.Checked.{lent_day};
ghost use Rattle.choice.specs.Choice.{choice, Chosen};

use day::LentDay;
use legality::check_plan;

// The row that is chosen, where one of the two is legal.
#[derive(Clone, Copy)]
pub enum Which {
    First,
    Second,
}

// Which of the two rows is chosen: the cheaper legal one.
pub fn which_row(day: LentDay, first: &[u32], second: &[u32]) -> Option<Which>
    ensures { result ≡ choice (lent_day day.entry) first.now second.now }
{
    let one = check_plan(day, first);
    let other = check_plan(day, second);
    match (one, other) {
        (Ok(first_total), Ok(second_total)) if second_total < first_total => Some(Which::Second),
        (Ok(_), _) => Some(Which::First),
        (Err(_), Ok(_)) => Some(Which::Second),
        (Err(_), Err(_)) => None,
    }
}

// The row that is chosen, as the reference that was lent, or the first's empty front.
pub fn choose<'a>(day: LentDay, first: &'a [u32], second: &'a [u32]) -> &'a [u32]
    ensures { Chosen (choice (lent_day day.entry) first.now second.now) result first.entry second.entry ((result.now ≡ []) × (result.ref_ptr ≡ first.entry.ref_ptr)) }
{
    match which_row(day, first, second) {
        Some(Which::First) => first,
        Some(Which::Second) => second,
        None => &first[..0],
    }
}
