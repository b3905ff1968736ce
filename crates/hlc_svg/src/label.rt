// Bytes as text of a picture.

ghost use Rattle.std.specs.Prelude.{◌≡◌, ◌+◌, ◌++◌, ◌<◌, ◌≤◌, OnOk, drop, length, string_bytes};
ghost use Rattle.hlc_svg.specs.Label.{byte_text, byte_width, hex_digit, label_text, label_width, letter_width, number_text, shown_at, shown_len, shown_text, shown_width};

use crate::letters::letter_at;
use std::alloc::AllocError;

// The first letter that is as wide as two characters of ASCII.
pub(crate) const FIRST_WIDE: u32 = 0x2E80;

// What is shown of the beginning of some bytes.
#[derive(Clone, Copy)]
pub(crate) enum Shown {
    // The letter there, as it is.
    Letter(char),
    // The first byte.
    Byte(u8),
}

// A digit of a number in base 16.
fn hex_digit(digit: u8) -> char
    requires { digit < 16 }
    ensures { result ≡ hex_digit digit }
{
    char::from(if digit < 10 {
        b'0' + digit
    } else {
        b'a' + (digit - 10)
    })
}

// A byte by its number, as `\x0a`.
fn put_number(text: &mut String, byte: u8) -> Result<(), AllocError>
    ensures { OnOk result (string_bytes text.new ≡ string_bytes text.old ++ number_text byte) }
{
    text.push_str("\\x")?;
    text.push(hex_digit(byte / 16))?;
    text.push(hex_digit(byte % 16))
}

// A byte as it is shown: a printable character of ASCII as it is, and each other byte by its number. What XML or this
// notation takes for itself is escaped.
fn put_byte(text: &mut String, byte: u8) -> Result<(), AllocError>
    ensures { OnOk result (string_bytes text.new ≡ string_bytes text.old ++ byte_text byte) }
{
    match byte {
        b'<' => text.push_str("&lt;"),
        b'>' => text.push_str("&gt;"),
        b'&' => text.push_str("&amp;"),
        b'"' => text.push_str("&quot;"),
        b'\'' => text.push_str("&apos;"),
        b'\\' => text.push_str("\\\\"),
        b' '..=b'~' => text.push(char::from(byte)),
        _ => put_number(text, byte),
    }
}

// How many characters are seen of a byte.
fn byte_width(byte: u8) -> u16
    ensures { result ≡ byte_width byte }
{
    match byte {
        b'\\' => 2,
        b' '..=b'~' => 1,
        _ => 4,
    }
}

// What is shown of the beginning of some bytes.
#[tactic(auto, unfolding(crate::specs::Label::shown_at))]
fn shown_first(bytes: &[u8]) -> Shown
    requires { 0 < length bytes.now }
    ensures { result ≡ shown_at bytes.now }
{
    match letter_at(bytes) {
        Some(letter) => Shown::Letter(letter),
        None => Shown::Byte(bytes[0]),
    }
}

// Adds it.
fn put_shown(text: &mut String, shown: Shown) -> Result<(), AllocError>
    ensures { OnOk result (string_bytes text.new ≡ string_bytes text.old ++ shown_text shown) }
{
    match shown {
        Shown::Letter(letter) => text.push(letter),
        Shown::Byte(byte) => put_byte(text, byte),
    }
}

// How many characters wide a letter is.
fn letter_width(letter: char) -> u16
    ensures { result ≡ letter_width letter }
{
    if u32::from(letter) < FIRST_WIDE { 1 } else { 2 }
}

// How many characters wide what is shown is.
fn shown_width(shown: Shown) -> u16
    ensures { result ≡ shown_width shown }
{
    match shown {
        Shown::Letter(letter) => letter_width(letter),
        Shown::Byte(byte) => byte_width(byte),
    }
}

// How many bytes it is made of.
fn shown_len(shown: Shown) -> usize
    ensures { result ≡ shown_len shown }
{
    match shown {
        Shown::Letter(letter) => letter.len_utf8(),
        Shown::Byte(_) => 1,
    }
}

// The bytes after what is shown of their beginning.
#[tactic(auto, using(crate::proofs::Labels::rest_fits))]
fn rest_after(bytes: &[u8], shown: Shown) -> &[u8]
    requires some { 0 < length bytes.now }
    requires shown { shown ≡ shown_at bytes.now }
    ensures { result.now ≡ drop (shown_len shown) bytes.now }
{
    let len = shown_len(shown);
    &bytes[len..]
}

/// Adds bytes as they are shown, as many as there is room for, and two dots if that isn't all of them. Printable ASCII and letters
/// of other scripts are shown as they are, and every other byte by its number.
pub fn put_label(text: &mut String, bytes: &[u8], room: u16) -> Result<(), AllocError>
    ensures { OnOk result (string_bytes text.new ≡ string_bytes text.old ++ label_text room bytes.now) }
{
    let (mut rest, mut left) = (bytes, room);
    'rest: while !rest.is_empty() {
        let shown = shown_first(rest);
        let width = shown_width(shown);
        if left < width {
            return text.push_str("..");
        }
        put_shown(text, shown)?;
        left -= width;
        rest = rest_after(rest, shown);
    }
    Ok(())
}

/// How many characters wide that is. Of some scripts a letter is as wide as two characters of ASCII.
pub fn label_width(bytes: &[u8], room: u16) -> u32
    ensures width { result ≡ label_width room bytes.now }
    ensures fits { result ≤ room + 2 }
{
    let (mut rest, mut left) = (bytes, room);
    'rest: while !rest.is_empty() {
        let shown = shown_first(rest);
        let width = shown_width(shown);
        if left < width {
            return u32::from(room - left) + 2;
        }
        left -= width;
        rest = rest_after(rest, shown);
    }
    u32::from(room - left)
}
