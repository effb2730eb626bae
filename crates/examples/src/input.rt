// The examples as they stand in the input.
ghost use Rattle.std.specs.Prelude.{◌≤◌, IfSome};

// What an example asks for.
#[derive(Clone, Copy)]
pub enum Kind {
    Day,
    Factors,
    Growth,
    Lengths,
    Odds,
    Program,
    Read,
    Text,
    Unfit,
    Values,
}

// By the first letter of its name.
impl From<u8> for Kind {
    fn from(letter: u8) -> Kind {
        match letter {
            b'd' => Kind::Day,
            b'f' => Kind::Factors,
            b'g' => Kind::Growth,
            b'l' => Kind::Lengths,
            b'o' => Kind::Odds,
            b'p' => Kind::Program,
            b't' => Kind::Text,
            b'u' => Kind::Unfit,
            b'v' => Kind::Values,
            _ => Kind::Read,
        }
    }
}

// The digit that stands at a place, if one does.
fn digit_at(input: &[u8], place: usize) -> Option<usize>
    ensures { IfSome result (λ digit. digit ≤ 9) }
{
    match input.get(place) {
        Some(byte) if byte.is_ascii_digit() => Some((*byte - b'0') as usize),
        _ => None,
    }
}

// Where the word that begins at `at` ends.
pub fn word_end(input: &[u8], at: usize) -> usize
    ensures { at ≤ result }
{
    for place in at..input.len() {
        if input[place] == b' ' {
            return place;
        }
    }
    at.max(input.len())
}

// The number whose digits stand from `at` on, and the place behind them. No more than five digits are read.
#[derive(Clone, Copy)]
pub struct Size {
    pub value: usize,
    pub end: usize,
}

pub fn size_at(input: &[u8], at: usize) -> Size
    ensures { (result.value ≤ 100000) × (result.end ≤ 130005) }
{
    if 130000 < at {
        return Size {
            value: 0,
            end: 130000,
        };
    }
    let mut value = 0;
    for end in at..at + 5 {
        let Some(digit) = digit_at(input, end) else {
            return Size { value, end };
        };
        if 9999 < value {
            return Size { value, end };
        }
        value = value * 10 + digit;
    }
    Size { value, end: at + 5 }
}
