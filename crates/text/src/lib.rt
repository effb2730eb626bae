// Numbers and fixed lines as bytes: read at a place of a slice; numbers are written from a place on, lines to the front of a lent part.
#![tactic(auto)]

ghost use Rattle.std.specs.Prelude.{◌≡◌, ◌+◌, ◌*◌, ◌≤◌, ◌<◌, length, drop, EachIndex, slice_index};
ghost use Rattle.std.specs.Char.{IsAsciiDigit};
ghost use Rattle.text.specs.Digits.{digits, ended, separated, line};
ghost use Rattle.text.specs.Reading.{run, value, number, field, separated_at, place_of, row_after, line_at, last_of};
ghost use Rattle.text.specs.Fixed.{starts_with, refusal_text};
ghost use Rattle.text.specs.Writing.{Put, text_answer, text_after};

use answers::Refusal;

pub const COMMA: u8 = b',';

pub const LINE_END: u8 = b'\n';

// A number read: its value and the place behind it.
#[derive(Clone, Copy)]
pub struct Number {
    pub n: u32,
    pub next: usize,
}

// How many digits stand in front.
#[tactic(auto, unfolding(crate::specs::Reading::run))]
fn run_len(s: &[u8]) -> usize
    ensures { result ≡ length (run s.now) }
{
    s.iter().take_while(|d| d.is_ascii_digit()).count()
}

// The value of digits. Nine of them fit 32 bits.
fn value_of(digits: &[u8]) -> u32
    requires digits { EachIndex digits.now (λ k. IsAsciiDigit (slice_index digits.now k)) }
    requires few { length digits.now ≤ 9 }
    ensures { result ≡ value 0 digits.now }
{
    let mut n: u32 = 0;
    for d in digits {
        n = n * 10 + u32::from(*d - b'0');
    }
    n
}

// The number of at most `most` digits at a place.
fn number_at(s: &[u8], at: usize, most: usize) -> Option<Number>
    requires { (at ≤ length s.now) × (most ≤ 9) }
    ensures { result ≡ number most s.now at }
{
    let k = run_len(&s[at..]);
    if k == 0 || most < k {
        return None;
    }
    if 1 < k && s[at] == b'0' {
        return None;
    }
    let next = at + k;
    let n = value_of(&s[at..next]);
    Some(Number { n, next })
}

// A number that the byte e ends, and the place behind that byte.
pub fn field_at(s: &[u8], at: usize, most: usize, e: u8) -> Option<Number>
    requires { (at ≤ length s.now) × (most ≤ 9) × (0 < e) }
    ensures { result ≡ field most e s.now at }
{
    let Number { n, next } = number_at(s, at, most)?;
    if next < s.len() && s[next] == e {
        return Some(Number { n, next: next + 1 });
    }
    None
}

// As many numbers as the row has, each with a comma behind it, into the row; the place behind them.
pub fn separated_at(s: &[u8], at: usize, most: usize, numbers: &mut [u32]) -> Option<usize>
    requires { (at ≤ length s.now) × (most ≤ 9) }
    ensures value { result ≡ place_of (separated_at (length numbers.old) most s.now at) }
    ensures numbers_after { numbers.new ≡ row_after (separated_at (length numbers.old) most s.now at) numbers.old }
{
    let mut next = at;
    for number in numbers.iter_mut() {
        let read = field_at(s, next, most, COMMA)?;
        *number = read.n;
        next = read.next;
    }
    Some(next)
}

// A line of one number more than the row has: the last number and the place behind the line, the others into the row.
pub fn line_at(s: &[u8], at: usize, most: usize, numbers: &mut [u32]) -> Option<Number>
    requires { (at ≤ length s.now) × (most ≤ 9) }
    ensures value { result ≡ last_of (line_at (length numbers.old) most s.now at) }
    ensures numbers_after { numbers.new ≡ row_after (separated_at (length numbers.old) most s.now at) numbers.old }
{
    let next = separated_at(s, at, most, numbers)?;
    field_at(s, next, most, LINE_END)
}

// Whether the fixed bytes w stand at a place.
#[tactic(auto, unfolding(crate::specs::Fixed::starts_with))]
pub fn fixed_at(s: &[u8], at: usize, w: &[u8]) -> bool
    requires { at ≤ length s.now }
    ensures { result ≡ starts_with (drop at s.now) w.now }
{
    s[at..].starts_with(w)
}

// How many digits a number has.
fn digit_count(n: usize) -> usize
    ensures { result ≡ length (digits n) }
{
    let mut m = n;
    let mut count: usize = 1;
    // Kept: a while, since the number is divided until one digit is left, and no index is counted.
    while 10 <= m {
        m /= 10;
        count += 1;
    }
    count
}

// A number and the byte that ends its field, from `at` on, written from its last digit on; the place behind them.
pub fn put_number_at(out: &mut [u8], at: usize, n: usize, e: u8) -> usize
    requires { at + length (ended e n) ≤ length out.old }
    ensures { Put out.old at (ended e n) result out.new }
{
    let end = at + digit_count(n);
    let mut left = n;
    for i in (at..end).rev() {
        out[i] = b'0' + (left % 10) as u8;
        left /= 10;
    }
    out[end] = e;
    end + 1
}

// Fixed bytes, at the front of out; how many. Kept: beside `put_fixed_at`, since docs/01-scope.md has line writers fill the front of a lent part.
pub fn put_fixed(out: &mut [u8], w: &[u8]) -> usize
    requires { length w.now ≤ length out.old }
    ensures { Put out.old 0 w.now result out.new }
{
    out[..w.len()].copy_from_slice(w);
    w.len()
}

// The same from `at` on: the part that starts there is lent on; the place behind them.
pub fn put_fixed_at(out: &mut [u8], at: usize, w: &[u8]) -> usize
    requires { at + length w.now ≤ length out.old }
    ensures { Put out.old at w.now result out.new }
{
    let k = put_fixed(&mut out[at..], w);
    at + k
}

// Numbers from `at` on, each with a comma behind it; the place behind them.
pub fn put_separated_at(out: &mut [u8], at: usize, numbers: &[usize]) -> usize
    requires { at + length (separated numbers.now) ≤ length out.old }
    ensures { Put out.old at (separated numbers.now) result out.new }
{
    let mut next = at;
    for n in numbers {
        next = put_number_at(out, next, *n, COMMA);
    }
    next
}

// A line of numbers, at the front of out; how many bytes. Kept: beside `put_line_at`, since docs/01-scope.md has line writers fill the front of a
// lent part.
pub fn put_line(out: &mut [u8], numbers: &[usize], last: usize) -> usize
    requires { length (line numbers.now last) ≤ length out.old }
    ensures { Put out.old 0 (line numbers.now last) result out.new }
{
    let next = put_separated_at(out, 0, numbers);
    put_number_at(out, next, last, LINE_END)
}

// The same from `at` on: the part that starts there is lent on; the place behind it.
pub fn put_line_at(out: &mut [u8], at: usize, numbers: &[usize], last: usize) -> usize
    requires { at + length (line numbers.now last) ≤ length out.old }
    ensures { Put out.old at (line numbers.now last) result out.new }
{
    let k = put_line(&mut out[at..], numbers, last);
    at + k
}

// How many bytes a number and the byte that ends its field take.
pub fn number_len(n: usize) -> usize
    ensures { (result ≡ length (ended 44 n)) × (result ≡ length (ended 10 n)) × (result ≤ 21) }
{
    digit_count(n) + 1
}

// How many bytes numbers, each with a comma behind it, take.
pub fn separated_len(numbers: &[usize]) -> usize
    requires { length numbers.now ≤ 8 }
    ensures { (result ≡ length (separated numbers.now)) × (result ≤ 21 * length numbers.now) }
{
    numbers.iter().map(|n| number_len(*n)).sum()
}

// How many bytes a line of numbers takes.
pub fn line_len(numbers: &[usize], last: usize) -> usize
    requires { length numbers.now ≤ 8 }
    ensures { (result ≡ length (line numbers.now last)) × (result ≤ 21 * length numbers.now + 21) }
{
    separated_len(numbers) + number_len(last)
}

const REFUSAL_NAMES: &[u8] = b"refusal,first,second\n";

// The text of a refusal, at the front of the buffer.
pub fn write_refusal(
    number: usize,
    first: usize,
    second: usize,
    text: &mut [u8],
) -> Result<usize, Refusal>
    ensures value { result ≡ text_answer text.old 0 (refusal_text number first second) }
    ensures text_after { text.new ≡ text_after text.old 0 (refusal_text number first second) }
{
    let values = [number, first];
    let needed = line_len(&values, second) + REFUSAL_NAMES.len();
    if text.len() < needed {
        return Err(Refusal::BadLength { needed });
    }
    let at = put_fixed(text, REFUSAL_NAMES);
    put_line_at(text, at, &values, second);
    Ok(needed)
}
