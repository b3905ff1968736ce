ghost use Rattle.std.specs.Prelude.{◌≡◌, ◌++◌, IfOk, codes, decimal};
ghost use Rattle.hlc_csv.specs.Rows.{row_field_bytes};
ghost use Rattle.hlc_log_text.specs.Files.{line_text, location_text};

use crate::files::Files;
use crate::location::Location;
use hlc_csv::RowField;
use itoa::Buffer;
use std::alloc::{AllocError, Global};
use std::marker::Model;

// A number needs no memory.
#[derive(Drop)]
enum Told {
    Line(u64),
    InFile(Vec<u8>),
}

/// How a line of a log is told in a row: `LINE`, or `NAME:LINE` if it stands in a file. Seen as the bytes of that.
#[derive(Drop)]
pub struct LineText {
    told: Told,
}

impl Model for LineText {
    ghost use Rattle.std.specs.Prelude.{ℕ, List};
    ghost use Rattle.hlc_log_text.specs.LineText.{told_bytes};

    ghost Value = { List ℕ };

    ghost view = { λ text. told_bytes text.told };
}

// The name of a file, and the number of a line in it.
fn name_and_number(alloc: Global, name: &[u8], number: u64) -> Result<Vec<u8>, AllocError>
    ensures { IfOk result (λ text. text.items ≡ name.now ++ (codes ":" ++ decimal number)) }
{
    let mut text = Vec::from_slice(alloc, name)?;
    text.push(b':')?;
    text.extend_from_slice(Buffer::new().format(number).as_bytes())?;
    Ok(text)
}

impl LineText {
    /// How a line, counted over all files, is told. It takes memory only if it stands in a file.
    pub fn new(files: &Files, line: u64) -> Result<LineText, AllocError>
        ensures { IfOk result (λ text. text ≡ line_text files.now line) }
    {
        let told = match files.mark_before(line) {
            None => Told::Line(line),
            Some(mark) => {
                let number = line - u64::from(mark.line);
                Told::InFile(name_and_number(files.allocator(), &mark.name, number)?)
            }
        };
        Ok(LineText { told })
    }

    /// How a location is told, whether a log has it or not.
    pub fn of(alloc: Global, location: &Location) -> Result<LineText, AllocError>
        ensures { IfOk result (λ text. text ≡ location_text location.now) }
    {
        let told = match &location.file {
            None => Told::Line(location.line),
            Some(name) => Told::InFile(name_and_number(alloc, name, location.line)?),
        };
        Ok(LineText { told })
    }

    /// The field of a row that tells it.
    pub fn field(&self) -> RowField<'_>
        ensures { row_field_bytes result ≡ self.now }
    {
        match &self.told {
            Told::Line(line) => RowField::Number(*line),
            Told::InFile(text) => RowField::Text(text),
        }
    }
}
