// Numbers and stamps as the rows show them.

ghost use Rattle.std.specs.Prelude.{◌≡◌, ◌++◌, ◌≤◌, OnOk, drop, string_bytes, take};
ghost use Rattle.std.specs.Str.{IsAscii};
ghost use Rattle.hlc_svg.specs.Numbers.{digits_of, first_text, first_width, no_digits, row_number, row_number_width, stamp_text, stamp_width};

use hlc_stamp::Stamp;
use itoa::Buffer;
use std::alloc::AllocError;

/// Digits with which all numbers of some columns begin. They stand in the headings, and the rows show the rest of each number.
#[derive(Clone, Copy)]
pub struct FirstDigits {
    /// A number that begins with them.
    pub of: u64,
    /// How many there are.
    pub count: u8,
}

impl FirstDigits {
    /// The rows show all digits.
    pub fn none() -> FirstDigits
        ensures { result ≡ no_digits }
    {
        FirstDigits { of: 0, count: 0 }
    }
}

/// How many digits a number has.
pub fn digits(number: u64) -> u32
    ensures digits { result ≡ digits_of number }
    ensures few { result ≤ 40 }
{
    Buffer::new().format(number).len() as u32
}

// The first of some digits.
#[tactic(auto, using(crate::proofs::CutDigits::cut_at_a_digit, crate::proofs::CutDigits::first_of_all))]
fn head(digits: &str, count: u8) -> &str
    requires { IsAscii digits.now }
    ensures { result.now ≡ take count digits.now }
{
    &digits[..usize::from(count).min(digits.len())]
}

// And those after them.
#[tactic(auto, using(crate::proofs::CutDigits::cut_at_a_digit, crate::proofs::CutDigits::rest_of_all))]
fn rest(digits: &str, count: u8) -> &str
    requires { IsAscii digits.now }
    ensures { result.now ≡ drop count digits.now }
{
    &digits[usize::from(count).min(digits.len())..]
}

/// Adds a number as a row shows it.
pub fn put_number(text: &mut String, number: u64, first: FirstDigits) -> Result<(), AllocError>
    ensures { OnOk result (string_bytes text.new ≡ string_bytes text.old ++ row_number first number) }
{
    let mut buffer = Buffer::new();
    let digits = buffer.format(number);
    if first.count == 0 {
        return text.push_str(digits);
    }
    text.push_str("..")?;
    text.push_str(rest(digits, first.count))
}

/// How many characters it has there.
pub fn number_width(number: u64, first: FirstDigits) -> u32
    ensures width { result ≡ row_number_width first number }
    ensures few { result ≤ 42 }
{
    if first.count == 0 {
        digits(number)
    } else {
        digits(number).saturating_sub(u32::from(first.count)) + 2
    }
}

/// Adds a stamp as a row shows it.
pub fn put_stamp(text: &mut String, stamp: Stamp, first: FirstDigits) -> Result<(), AllocError>
    ensures { OnOk result (string_bytes text.new ≡ string_bytes text.old ++ stamp_text first stamp) }
{
    let c = stamp.c;
    text.push_str("(")?;
    put_number(text, stamp.l, first)?;
    write!(text, ", {c})")
}

/// How many characters it has there.
pub fn stamp_width(stamp: Stamp, first: FirstDigits) -> u32
    ensures { result ≡ stamp_width first stamp }
{
    number_width(stamp.l, first) + digits(u64::from(stamp.c)) + 4
}

/// Adds the first digits to the word of a heading.
pub fn put_first(text: &mut String, first: FirstDigits) -> Result<(), AllocError>
    ensures { OnOk result (string_bytes text.new ≡ string_bytes text.old ++ first_text first) }
{
    if first.count == 0 {
        return Ok(());
    }
    let mut buffer = Buffer::new();
    text.push_str(" ")?;
    text.push_str(head(buffer.format(first.of), first.count))?;
    text.push_str("..")
}

/// How many characters that adds.
pub fn first_width(first: FirstDigits) -> u32
    ensures { result ≡ first_width first }
{
    if first.count == 0 {
        0
    } else {
        u32::from(first.count) + 3
    }
}
