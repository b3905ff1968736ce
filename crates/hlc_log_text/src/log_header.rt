ghost use Rattle.std.specs.Prelude.{◌≡◌, IfOk, Some};
ghost use Rattle.csv.specs.Records.{fields_of};
ghost use Rattle.hlc_csv.specs.Rows.{field_of};
ghost use Rattle.hlc_log_text.specs.LogHeader.{BeginsFile, HasSmallHead, IsHeadSaid, asked_fault};
ghost use Rattle.hlc_log_text.specs.LogItem.{item_in, other_item};
ghost use Rattle.hlc_log_text.specs.LogWord.{log_word_of};
ghost use Rattle.hlc_log_text.specs.Question.{asked_of};

use crate::bad_log::BadLog;
use crate::columns::{Columns, begins_as_header, columns_by};
use crate::extras::{Beside, Extras};
use crate::file_mark::begun_file;
use crate::log_rules::LogRules;
use crate::log_word::LogWord;
use crate::missing::missing_by;
use crate::question::LogQuestion;
use crate::record_head::{RecordHead, parse_whole};
use crate::record_syntax::RecordSyntax;
use crate::skipped::begins_as_skip;
use crate::stamp_form::StampForm;
use csv::ByteRecord;
use hlc_csv::field;
use std::alloc::{AllocError, Global};
use std::mem;

/// What a record of a log says, read by itself.
#[derive(Clone, Copy)]
pub enum RecordItem {
    /// It tells of an event, but for its names, which stand in its fields.
    Event(RecordHead, Extras),
    /// It tells of no event: it is a header, the mark of a file or a question, or says that something was left out.
    Other,
}

/// What has to be kept of a log so that its next record can be read by itself: whether that may be a header, and which columns the last one names.
#[derive(Clone, Copy)]
pub struct LogHeader {
    // Whether the next record is the first of the log or of a file.
    at_start: bool,
    // Those that the header of the log names, or that of its last file, if there is one.
    columns: Option<Columns>,
}

impl LogHeader {
    ghost use Rattle.std.specs.Prelude.{◌≡◌, ◌∷◌, ◌++◌, ℕ, IfOk, [], List, false};
    ghost use Rattle.hlc_log_text.specs.Columns.{columns_by, columns_of};
    ghost use Rattle.hlc_log_text.specs.FaultRule.{leaves_sent};
    ghost use Rattle.hlc_log_text.specs.LogHeader.{HasSmallCarried, IsHeaderAfter, PassesNext, SaysNext, TakesHeader};
    ghost use Rattle.hlc_log_text.specs.LogItem.{Begins, LogItem, header_columns, is_header};

    /// That of a log of which nothing is read yet.
    pub fn new() -> LogHeader
        ensures { IsHeaderAfter [] result }
    {
        LogHeader {
            at_start: true,
            columns: None,
        }
    }

    /// Reads the next record by itself, or tells why it is bad. The fields of an event are put into the places that they have in a log without a
    /// header, into `placed`; what `fields` then has isn't said.
    ///
    /// It knows no names of earlier records, so the rules may not be such that a second send of a message is bad. Where memory is refused, nothing
    /// is promised of it.
    pub fn read(
        &mut self,
        alloc: Global,
        rules: LogRules,
        fields: &mut ByteRecord,
        placed: &mut ByteRecord,
    ) -> Result<Result<RecordItem, BadLog>, AllocError>
        requires { leaves_sent rules.faults rules.resent ≡ false }
        ensures said { IfOk result (SaysNext rules self.old (fields_of fields.old) (fields_of placed.new) self.new) }
        ensures small { IfOk result HasSmallCarried }
    {
        let is_header = self.is_header(rules.syntax, fields);
        // So it stays if the record is bad, or is no header and begins no file.
        self.pass();
        if is_header {
            return match self.take(rules.form, fields) {
                None => Ok(Ok(RecordItem::Other)),
                Some(why) => Ok(Err(why)),
            };
        }
        let Some(word) = LogWord::parse(field(fields, 0)) else {
            return match begins_file(alloc, fields)? {
                Ok(true) => {
                    self.begin_file();
                    Ok(Ok(RecordItem::Other))
                }
                Ok(false) => Ok(Ok(RecordItem::Other)),
                Err(why) => Ok(Err(why)),
            };
        };
        if let Some(column) = missing_by(rules.syntax, rules.form, word, fields) {
            return Ok(Err(BadLog::Missing(column)));
        }
        match read_event(rules, self.columns(rules.syntax), word, fields, placed)? {
            Ok((head, extras)) => Ok(Ok(RecordItem::Event(head, extras))),
            Err(why) => Ok(Err(why)),
        }
    }

    // Whether the next record is a header: it is the first of the log or of a file, begins as one does, and wasn't written as a line of JSON lines.
    pub(crate) fn is_header(&self, syntax: RecordSyntax, fields: &ByteRecord) -> bool
        ensures { (items : List LogItem) → IsHeaderAfter items self.now → result ≡ is_header syntax items (fields_of fields.now) }
    {
        match syntax {
            RecordSyntax::Csv => self.at_start && begins_as_header(fields),
            RecordSyntax::JsonLines => false,
        }
    }

    // Takes in a header, or tells why it is bad.
    pub(crate) fn take(&mut self, form: StampForm, fields: &ByteRecord) -> Option<BadLog>
        ensures { TakesHeader form (columns_of (fields_of fields.now)) self.old self.new result }
    {
        let columns = Columns::named(fields);
        if !columns.are_complete(form) {
            return Some(BadLog::Header);
        }
        self.columns = Some(columns);
        self.at_start = false;
        None
    }

    // Takes in the mark of a file, whose records have columns of their own.
    pub(crate) fn begin_file(&mut self)
        ensures { (items : List LogItem) (name : List ℕ) → IsHeaderAfter (items ++ Begins name ∷ []) self.new }
    {
        self.at_start = true;
        self.columns = None;
    }

    // Takes in a record that is no header and begins no file.
    #[inline]
    pub(crate) fn pass(&mut self)
        ensures { PassesNext self.old self.new }
    {
        self.at_start = false;
    }

    // The columns in which the fields of the next record stand: none if they stand in their places.
    #[inline]
    pub(crate) fn columns(&self, syntax: RecordSyntax) -> Option<Columns>
        ensures { (items : List LogItem) → IsHeaderAfter items self.now → result ≡ columns_by syntax (header_columns items) }
    {
        columns_by(syntax, self.columns)
    }
}

// Whether a record that begins with no word of an event begins a file; or why it says nothing.
fn begins_file(alloc: Global, fields: &ByteRecord) -> Result<Result<bool, BadLog>, AllocError>
    ensures { IfOk result (BeginsFile (other_item (fields_of fields.now))) }
{
    if begun_file(fields).is_some() {
        return Ok(Ok(true));
    }
    if begins_as_skip(fields) {
        return if fields.len() == 1 {
            Ok(Ok(false))
        } else {
            Ok(Err(BadLog::Fields))
        };
    }
    match question_fault(alloc, fields)? {
        None => Ok(Ok(false)),
        Some(why) => Ok(Err(why)),
    }
}

// Why a record asks no question, if it doesn't.
fn question_fault(alloc: Global, fields: &ByteRecord) -> Result<Option<BadLog>, AllocError>
    ensures { IfOk result (λ why. why ≡ asked_fault (asked_of (fields_of fields.now))) }
{
    Ok(LogQuestion::parse(alloc, fields)?.err())
}

// Reads a record of a word whose fields stand in these columns, or in their places if there are none.
fn read_event(
    rules: LogRules,
    columns: Option<Columns>,
    word: LogWord,
    fields: &mut ByteRecord,
    placed: &mut ByteRecord,
) -> Result<Result<(RecordHead, Extras), BadLog>, AllocError>
    requires { log_word_of (field_of (fields_of fields.old) 0) ≡ Some word }
    ensures said { IfOk result (IsHeadSaid rules.form (fields_of placed.new) (item_in rules columns (fields_of fields.old))) }
    ensures small { IfOk result HasSmallHead }
{
    let Some(columns) = columns else {
        mem::swap(fields, placed);
        return Ok(parse_whole(rules, word, placed, Beside::NOTHING));
    };
    columns.arrange(rules.form, word, fields, placed)?;
    let beside = columns.beside(rules.form, word, fields);
    Ok(parse_whole(rules, word, placed, beside))
}
