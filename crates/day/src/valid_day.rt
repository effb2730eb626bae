// A day as it is lent to a call, and one that passed the day check.
ghost use Rattle.std.specs.Prelude.{◌≡◌, true};
ghost use Rattle.day.specs.Day.{lent, valid};

// A day as it is lent to a call: two rows and its closing number, whatever they hold.
#[derive(Clone, Copy)]
pub struct LentDay<'a> {
    pub capacities: &'a [u32],
    pub flights: &'a [u32],
    pub closing: u32,
}

// The same of a day that passed the day check: no other has this type.
#[derive(Clone, Copy)]
pub struct ValidDay<'a> {
    pub capacities: &'a [u32],
    pub flights: &'a [u32],
    pub closing: u32,
    ghost good: { valid (lent capacities flights closing) ≡ true },
}
