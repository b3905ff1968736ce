ghost use Rattle.std.specs.Prelude.{◌≡◌, ◌≤◌, length};
ghost use Rattle.hlc_csv.specs.Number.{number_of, number_up_to, with_digit};

// The longest field that is a number.
const MAX_DIGITS: usize = 20;

// So many digits always write a number of 64 bits.
const SAFE_DIGITS: usize = 19;

// The number with one digit more.
#[inline]
fn with_digit(value: u64, digit: u8) -> Option<u64>
    ensures { result ≡ with_digit value digit }
{
    if !digit.is_ascii_digit() {
        return None;
    }
    value.checked_mul(10)?.checked_add(u64::from(digit - b'0'))
}

// The number of a field of few digits, none of which can be one too many.
#[inline]
fn short_number(field: &[u8]) -> Option<u64>
    requires some { 1 ≤ length field.now }
    requires few { length field.now ≤ SAFE_DIGITS }
    ensures { result ≡ number_of field.now }
{
    let mut value = 0;
    for digit in field {
        if !digit.is_ascii_digit() {
            return None;
        }
        value = value * 10 + u64::from(*digit - b'0');
    }
    Some(value)
}

// The number of a field of any length: `number` calls it for an empty field and for one of more than 19 digits, and few
// scripts have either.
#[cold]
#[inline(never)]
fn long_number(field: &[u8]) -> Option<u64>
    ensures { result ≡ number_of field.now }
{
    if field.is_empty() || field.len() > MAX_DIGITS {
        return None;
    }
    let mut value = 0;
    for digit in field {
        value = with_digit(value, *digit)?;
    }
    Some(value)
}

/// The number that a field writes: one to twenty ASCII digits, of at most 64 bits.
#[inline]
pub fn number(field: &[u8]) -> Option<u64>
    ensures { result ≡ number_of field.now }
{
    if field.is_empty() || field.len() > SAFE_DIGITS {
        return long_number(field);
    }
    short_number(field)
}

/// The number that a field writes; 65,535 stands for all larger numbers.
#[inline]
pub fn number_u16(field: &[u8]) -> Option<u16>
    ensures { result ≡ number_up_to 65535 field.now }
{
    number(field).map(|n| n.min(65_535) as u16)
}

/// The number that a field writes; 4,294,967,295 stands for all larger numbers.
#[inline]
pub fn number_u32(field: &[u8]) -> Option<u32>
    ensures { result ≡ number_up_to 4294967295 field.now }
{
    number(field).map(|n| n.min(4_294_967_295) as u32)
}
