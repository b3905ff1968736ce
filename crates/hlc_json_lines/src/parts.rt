// Texts in parts.

ghost use Rattle.std.specs.Prelude.{◌≡◌, ◌<◌};
ghost use Rattle.hlc_json_lines.specs.Paths.{has_empty_part};

// Whether some part of a text is empty, where an ASCII character stands between each two parts.
pub(crate) fn has_empty_part(text: &str, mark: char) -> bool
    requires { mark < 128 }
    ensures { result ≡ has_empty_part mark text.now }
{
    let mut rest = text;
    while let Some((part, after)) = rest.split_once(mark) {
        if part.is_empty() {
            return true;
        }
        rest = after;
    }
    rest.is_empty()
}
