// A caller of `hlc_json_lines`.

ghost use Rattle.std.specs.Prelude.{◌≡◌, IfOk, IfSome, Some, codes};
ghost use Rattle.hlc_json_lines.specs.Lines.{log_text};
ghost use Rattle.hlc_json_lines.specs.Rules.{field_of_text, no_rules, with_field};

use hlc_json_lines::{JsonRules, LogInput};
use std::alloc::Global;
use std::io::{self, Read};

/// The records that JSON lines make, as one text, if each has the kind of its event under `event.type`.
pub fn records_of<R: Read + Drop>(alloc: Global, reader: R) -> io::Result<Vec<u8>>
    ensures { IfOk result (λ text. IfSome (R.remaining reader)
        (λ lines. text.items ≡ log_text (Some (with_field no_rules (field_of_text (codes "kind=.event.type")))) lines)) }
{
    let mut rules = JsonRules::new(alloc);
    rules.add_field(alloc, "kind=.event.type")?;
    let mut text = Vec::new(alloc);
    LogInput::new(alloc, reader, Some(rules))?.read_to_end(&mut text)?;
    Ok(text)
}
