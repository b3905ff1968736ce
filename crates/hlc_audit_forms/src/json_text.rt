// Texts as JSON writes them.

ghost use Rattle.std.specs.Prelude.{◌≡◌, ◌++◌, ◌∷◌, [], OnOk};
ghost use Rattle.std.specs.List.{flat_map};
ghost use Rattle.std.specs.Str.{is_utf8};
ghost use Rattle.hlc_audit_forms.specs.JsonText.{comma_before, json_string, numbered_byte, string_byte};

use crate::hex::put_hex;
use std::alloc::AllocError;
use std::str;

// Adds a byte as the character of its number.
fn put_numbered(text: &mut Vec<u8>, byte: u8) -> Result<(), AllocError>
    ensures { OnOk result (text.new.items ≡ text.old.items ++ numbered_byte byte) }
{
    text.extend_from_slice(b"\\u00")?;
    put_hex(text, byte)
}

// Adds a byte of a text, which is UTF-8 or not.
fn put_byte(text: &mut Vec<u8>, in_utf8: bool, byte: u8) -> Result<(), AllocError>
    ensures { OnOk result (text.new.items ≡ text.old.items ++ string_byte in_utf8 byte) }
{
    if byte == b'"' || byte == b'\\' {
        text.extend_from_slice(&[b'\\', byte])
    } else if byte < 32 || (byte > 127 && !in_utf8) {
        put_numbered(text, byte)
    } else {
        text.extend_from_slice(&[byte])
    }
}

// Adds the bytes of a text.
fn put_bytes(text: &mut Vec<u8>, in_utf8: bool, field: &[u8]) -> Result<(), AllocError>
    ensures { OnOk result (text.new.items ≡ text.old.items ++ flat_map (string_byte in_utf8) field.now) }
{
    for byte in field {
        put_byte(text, in_utf8, *byte)?;
    }
    Ok(())
}

// Whether a text is UTF-8.
fn is_utf8(field: &[u8]) -> bool
    ensures { result ≡ is_utf8 field.now }
{
    str::from_utf8(field).is_ok()
}

// Adds a text between quotation marks.
pub(crate) fn put_string(text: &mut Vec<u8>, field: &[u8]) -> Result<(), AllocError>
    ensures { OnOk result (text.new.items ≡ text.old.items ++ json_string field.now) }
{
    text.extend_from_slice(b"\"")?;
    put_bytes(text, is_utf8(field), field)?;
    text.extend_from_slice(b"\"")
}

// Adds the comma before what isn't the first of a list or an object.
pub(crate) fn put_comma(text: &mut Vec<u8>, is_first: bool) -> Result<(), AllocError>
    ensures { OnOk result (text.new.items ≡ text.old.items ++ comma_before is_first) }
{
    if is_first {
        return Ok(());
    }
    text.extend_from_slice(b",")
}

// Adds the name of a member of an object, behind which its value stands.
pub(crate) fn put_name(text: &mut Vec<u8>, name: &[u8]) -> Result<(), AllocError>
    ensures { OnOk result (text.new.items ≡ text.old.items ++ (json_string name.now ++ 58 ∷ [])) }
{
    put_string(text, name)?;
    text.extend_from_slice(b":")
}
