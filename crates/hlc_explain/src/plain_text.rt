// Texts that stand on one line as they are.

ghost use Rattle.std.specs.Prelude.{◌≡◌, option_map};
ghost use Rattle.std.specs.List.{list_any};
ghost use Rattle.hlc_explain.specs.Plain.{if_plain, is_hidden};

// Whether a byte is no printable character of ASCII.
fn is_hidden(byte: u8) -> bool
    ensures { result ≡ is_hidden byte }
{
    !matches!(byte, b' '..=b'~')
}

// Whether a text has such a byte.
fn has_hidden(text: &[u8]) -> bool
    ensures { result ≡ list_any is_hidden text.now }
{
    text.iter().any(|byte| is_hidden(*byte))
}

/// A text, unless a byte of it is no printable character of ASCII. So a row that has it is one line.
pub fn plain(text: &[u8]) -> Option<&[u8]>
    ensures { option_map (λ text. text.now) result ≡ if_plain text.now }
{
    if has_hidden(text) {
        return None;
    }
    Some(text)
}
