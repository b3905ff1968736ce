// Numbers in base 16.

ghost use Rattle.std.specs.Prelude.{◌≡◌, ◌++◌, ◌<◌, OnOk};
ghost use Rattle.std.specs.Char.{digit_char};
ghost use Rattle.hlc_audit_forms.specs.Hex.{hex_byte};

use std::alloc::AllocError;

// A digit.
fn hex_digit(digit: u8) -> u8
    requires { digit < 16 }
    ensures { result ≡ digit_char digit }
{
    if digit < 10 {
        b'0' + digit
    } else {
        b'a' + (digit - 10)
    }
}

// Adds the two digits of a byte.
pub(crate) fn put_hex(text: &mut Vec<u8>, byte: u8) -> Result<(), AllocError>
    ensures { OnOk result (text.new.items ≡ text.old.items ++ hex_byte byte) }
{
    text.extend_from_slice(&[hex_digit(byte / 16), hex_digit(byte % 16)])
}
