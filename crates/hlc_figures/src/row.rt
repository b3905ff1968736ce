// The row of an event.

ghost use Rattle.std.specs.Prelude.{◌≡◌, ◌++◌, ◌<◌, OnOk, length, string_bytes};
ghost use Rattle.hlc_figures.specs.Columns.{AreColumnsOf, column_x};
ghost use Rattle.hlc_figures.specs.Row.{begin_text, cell_at, cell_text, row_at, row_text};

use crate::scene::Scene;
use crate::subject::Subject;
use hlc_stamp::EventId;
use hlc_svg::text::put;
use std::alloc::AllocError;

/// Where a column begins.
pub(crate) fn column_x<S: Subject>(subject: &S, scene: &Scene<'_>, column: u8) -> u64
    requires begin { AreColumnsOf (S.content subject.now) scene.now.frame scene.now.columns.now }
    requires column { column < (S.content subject.now).columns }
    ensures { result ≡ column_x (S.content subject.now) scene.now.frame column }
{
    let _of = subject;
    scene.columns[usize::from(column)]
}

// What comes before the text of a cell.
fn put_begin(text: &mut String, x: u64, y: u64) -> Result<(), AllocError>
    ensures { OnOk result (string_bytes text.new ≡ string_bytes text.old ++ begin_text x y) }
{
    write!(text, "<text x=\"{x}\" y=\"{y}\" dy=\"4\">")
}

// The cell of an event in a column.
fn put_cell<S: Subject>(
    text: &mut String,
    subject: &S,
    scene: &Scene<'_>,
    event: EventId,
    y: u64,
    column: u8,
) -> Result<(), AllocError>
    requires begin { AreColumnsOf (S.content subject.now) scene.now.frame scene.now.columns.now }
    requires exists { event.0 < length (S.content subject.now).events }
    requires column { column < (S.content subject.now).columns }
    ensures { OnOk result (string_bytes text.new ≡ string_bytes text.old
        ++ cell_text (cell_at (S.content subject.now) scene.now.frame y event.0 column)) }
{
    let x = column_x(subject, scene, column);
    put_begin(text, x, y)?;
    subject.put_cell(text, event, column)?;
    put(text, "</text>")
}

/// Adds the row of an event at a height.
pub fn put_row<S: Subject>(
    text: &mut String,
    subject: &S,
    scene: &Scene<'_>,
    event: EventId,
    y: u64,
) -> Result<(), AllocError>
    requires begin { AreColumnsOf (S.content subject.now) scene.now.frame scene.now.columns.now }
    requires exists { event.0 < length (S.content subject.now).events }
    ensures { OnOk result (string_bytes text.new ≡ string_bytes text.old
        ++ row_text (row_at (S.content subject.now) scene.now.frame y event.0)) }
{
    for column in 0..subject.columns() {
        put_cell(text, subject, scene, event, y, column)?;
    }
    put(text, "\n")
}
