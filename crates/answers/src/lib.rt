// Why a call is turned down, and the number and two values that documents 01 and 02 give for each answer.
#![tactic(auto)]

ghost use Rattle.std.specs.Prelude.{◌≡◌};
ghost use Rattle.answers.specs.Answers.{code, refusal_code, code_of};

// Why a call is turned down. Lines are named by the offset of their first byte, flights by their table place.
#[derive(Clone, Copy)]
pub enum Refusal {
    TooLong,
    BadForm { line: usize },
    OutOfRange { line: usize },
    NumberUsed { line: usize },
    BadCount { line: usize },
    BadDay,
    BadLength { needed: usize },
    JumpOrLimit { place: usize },
    NoPlan { first: usize, last: usize },
    NotLegal { place: usize },
    NoSuchPeriod { periods: usize },
    BadForecasts,
    BadTerms,
    BadGrowth,
    BadPlanText { line: usize },
}

// An answer as documents 01 and 02 number it.
#[repr(C)]
#[derive(Clone, Copy)]
pub struct Code {
    pub number: u64,
    pub first: u64,
    pub second: u64,
}

impl Code {
    fn new(number: u64, first: usize, second: usize) -> Code
        ensures { result ≡ code number first second }
    {
        Code {
            number,
            first: first as u64,
            second: second as u64,
        }
    }

    // An accepted call, with the two values that it returns.
    pub fn accepted(first: usize, second: usize) -> Code
        ensures { result ≡ code 0 first second }
    {
        Code::new(0, first, second)
    }
}

impl From<Refusal> for Code {
    ghost from_gives = { λ refusal given. given ≡ refusal_code refusal };

    fn from(refusal: Refusal) -> Code {
        match refusal {
            Refusal::TooLong => Code::new(1, 8192, 0),
            Refusal::BadForm { line } => Code::new(2, line, 0),
            Refusal::OutOfRange { line } => Code::new(3, line, 0),
            Refusal::NumberUsed { line } => Code::new(4, line, 0),
            Refusal::BadCount { line } => Code::new(5, line, 0),
            Refusal::BadDay => Code::new(6, 0, 0),
            Refusal::BadLength { needed } => Code::new(7, needed, 0),
            Refusal::JumpOrLimit { place } => Code::new(8, place, 0),
            Refusal::NoPlan { first, last } => Code::new(9, first, last),
            Refusal::NotLegal { place } => Code::new(10, place, 0),
            Refusal::NoSuchPeriod { periods } => Code::new(11, periods, 0),
            Refusal::BadForecasts => Code::new(12, 0, 0),
            Refusal::BadTerms => Code::new(13, 0, 0),
            Refusal::BadGrowth => Code::new(14, 0, 0),
            Refusal::BadPlanText { line } => Code::new(15, line, 0),
        }
    }
}

// The answer of a call that returns one value, a total or how many bytes were written, where it is accepted.
pub fn code_of(answer: Result<usize, Refusal>) -> Code
    ensures { result ≡ code_of answer }
{
    match answer {
        Ok(value) => Code::accepted(value, 0),
        Err(refusal) => Code::from(refusal),
    }
}
