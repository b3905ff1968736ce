// What events need, and records of JSON lines may lack.

ghost use Rattle.std.specs.Prelude.{◌≡◌, Some};
ghost use Rattle.csv.specs.Records.{fields_of};
ghost use Rattle.hlc_csv.specs.Rows.{field_of};
ghost use Rattle.hlc_log_text.specs.LogWord.{log_word_of};
ghost use Rattle.hlc_log_text.specs.Missing.{if_empty, leaves_stamp, missing_by, missing_column, missing_message, missing_of_carried, missing_of_stamp, missing_stamp};

use crate::columns::Columns;
use crate::log_column::LogColumn;
use crate::log_word::LogWord;
use crate::record_syntax::RecordSyntax;
use crate::stamp_form::StampForm;
use csv::ByteRecord;
use hlc_csv::field;

// The column, if its field is empty.
fn if_empty(column: LogColumn, field: &[u8]) -> Option<LogColumn>
    ensures { result ≡ if_empty column field.now }
{
    if field.is_empty() { Some(column) } else { None }
}

// Whether a record leaves all fields of its stamp empty.
fn leaves_stamp(form: StampForm, columns: Columns, fields: &ByteRecord) -> bool
    ensures { result ≡ leaves_stamp form columns (fields_of fields.now) }
{
    match form {
        StampForm::Pair => {
            field(fields, columns.l).is_empty() && field(fields, columns.c).is_empty()
        }
        StampForm::Dotted | StampForm::Packed(_) => field(fields, columns.stamp).is_empty(),
    }
}

// The first column of its stamp that it leaves empty.
fn missing_of_stamp(form: StampForm, columns: Columns, fields: &ByteRecord) -> Option<LogColumn>
    ensures { result ≡ missing_of_stamp form columns (fields_of fields.now) }
{
    match form {
        StampForm::Pair => {
            let l = if_empty(LogColumn::L, field(fields, columns.l));
            l.or(if_empty(LogColumn::C, field(fields, columns.c)))
        }
        StampForm::Dotted | StampForm::Packed(_) => {
            if_empty(LogColumn::Stamp, field(fields, columns.stamp))
        }
    }
}

// The first column of the stamp that its message carried that it leaves empty.
fn missing_of_carried(form: StampForm, columns: Columns, fields: &ByteRecord) -> Option<LogColumn>
    ensures { result ≡ missing_of_carried form columns (fields_of fields.now) }
{
    match form {
        StampForm::Pair => {
            let l = if_empty(LogColumn::CarriedL, field(fields, columns.carried_l));
            l.or(if_empty(LogColumn::CarriedC, field(fields, columns.carried_c)))
        }
        StampForm::Dotted | StampForm::Packed(_) => {
            if_empty(LogColumn::Carried, field(fields, columns.carried))
        }
    }
}

// The column of its stamp that a record of a word lacks: a receive may leave all of it empty.
fn missing_stamp(
    form: StampForm,
    columns: Columns,
    word: LogWord,
    fields: &ByteRecord,
) -> Option<LogColumn>
    ensures { result ≡ missing_stamp form columns word (fields_of fields.now) }
{
    match word {
        LogWord::Receive if leaves_stamp(form, columns, fields) => None,
        _ => missing_of_stamp(form, columns, fields),
    }
}

// The column that it lacks to tell its message: a receive names that, or the node that sent it and then the stamp that it carried.
fn missing_message(
    form: StampForm,
    columns: Columns,
    word: LogWord,
    fields: &ByteRecord,
) -> Option<LogColumn>
    ensures { result ≡ missing_message form columns word (fields_of fields.now) }
{
    if word != LogWord::Receive || !field(fields, columns.message).is_empty() {
        return None;
    }
    if field(fields, columns.from).is_empty() {
        return Some(LogColumn::Message);
    }
    missing_of_carried(form, columns, fields)
}

// The first column that an event of a word needs and its record lacks.
fn missing_column(
    form: StampForm,
    columns: Columns,
    word: LogWord,
    fields: &ByteRecord,
) -> Option<LogColumn>
    ensures { result ≡ missing_column form columns word (fields_of fields.now) }
{
    let node = if_empty(LogColumn::Node, field(fields, columns.node));
    let stamp = missing_stamp(form, columns, word, fields);
    let message = missing_message(form, columns, word, fields);
    node.or(stamp.or(message))
}

// The column that a record of a log lacks, which begins with this word. This is told of JSON lines alone.
pub(crate) fn missing_by(
    syntax: RecordSyntax,
    form: StampForm,
    word: LogWord,
    fields: &ByteRecord,
) -> Option<LogColumn>
    requires { log_word_of (field_of (fields_of fields.now) 0) ≡ Some word }
    ensures { result ≡ missing_by syntax form (fields_of fields.now) }
{
    match syntax {
        RecordSyntax::Csv => None,
        RecordSyntax::JsonLines => missing_column(form, Columns::all(), word, fields),
    }
}
