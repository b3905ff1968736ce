// What an audit found, as text.

ghost use Rattle.std.specs.Prelude.{◌≡◌, ℕ, ◌++◌, IfOk, List, OnOk, map};
ghost use Rattle.std.specs.Io.KnownBytes.{Appends};
ghost use Rattle.csv.specs.Records.{fields_of};
ghost use Rattle.hlc_audit_forms.specs.AuditText.{IsTextOf, audit_text, is_row_of, section_text, sections_text, title_before};

use crate::output::write_whole;
use crate::row_lines::put_row;
use crate::rows::told_rows;
use crate::telling::{put_asking, put_telling, telling_row};
use crate::text_section::{SECTIONS, TextSection};
use csv::ByteRecord;
use hlc_csv::{OutputFault, field};
use std::alloc::{AllocError, Global};
use std::io::Write;

// Whether a row is one of a section.
fn is_row_of(section: TextSection, row: &ByteRecord) -> bool
    ensures { result ≡ is_row_of section (fields_of row.now) }
{
    section.has(field(row, 0))
}

// Adds the title of a section above its first line.
fn put_title(text: &mut Vec<u8>, section: TextSection, is_first: bool) -> Result<(), AllocError>
    ensures { OnOk result (text.new.items ≡ text.old.items ++ title_before section is_first) }
{
    if !is_first {
        return Ok(());
    }
    text.extend_from_slice(section.title())
}

// Adds a section.
fn put_section(
    text: &mut Vec<u8>,
    section: TextSection,
    rows: &[ByteRecord],
) -> Result<(), AllocError>
    ensures { OnOk result (text.new.items ≡ text.old.items ++ section_text (map fields_of rows.now) section) }
{
    let mut is_first = true;
    for row in rows {
        if is_row_of(section, row) {
            put_title(text, section, is_first)?;
            put_row(text, section, row)?;
            is_first = false;
        }
    }
    Ok(())
}

// Adds all sections, in their order.
fn put_sections(text: &mut Vec<u8>, rows: &[ByteRecord]) -> Result<(), AllocError>
    ensures { OnOk result (text.new.items ≡ text.old.items ++ sections_text (map fields_of rows.now)) }
{
    for section in SECTIONS {
        put_section(text, section, rows)?;
    }
    Ok(())
}

// Adds rows as text.
#[tactic(auto, unfolding(crate::specs::AuditText::audit_text))]
fn put_text(text: &mut Vec<u8>, rows: &[ByteRecord]) -> Result<(), AllocError>
    ensures { OnOk result (text.new.items ≡ text.old.items ++ audit_text (map fields_of rows.now)) }
{
    let told = telling_row(rows);
    put_telling(text, rows, told)?;
    put_sections(text, rows)?;
    put_asking(text, told)
}

/// The rows of a text that an audit with a report and groups wrote, as text for people.
pub fn text_of(alloc: Global, rows: &[u8]) -> Result<Vec<u8>, AllocError>
    ensures { IfOk result (λ text. IsTextOf rows.now text.items) }
{
    let rows = told_rows(alloc, rows)?;
    let mut text = Vec::new(alloc);
    put_text(&mut text, &rows)?;
    Ok(text)
}

/// Writes the rows of a text that an audit with a report and groups wrote, as text for people, and flushes the writer.
///
/// After a fault nothing is promised of what the writer got.
pub fn write_text<W: Write>(alloc: Global, rows: &[u8], writer: &mut W) -> Result<(), OutputFault>
    ensures { OnOk result ((text : List ℕ) × IsTextOf rows.now text × Appends (W.contents writer.old) (W.contents writer.new) text) }
{
    let text = text_of(alloc, rows)?;
    write_whole(&text, writer)
}
