// The columns of a log.

ghost use Rattle.std.specs.Prelude.{◌≡◌, ◌∷◌, ◌++◌, [], OnOk, option_map};
ghost use Rattle.csv.specs.Records.{fields_of, partial_of};
ghost use Rattle.hlc_csv.specs.Rows.{field_of};
ghost use Rattle.hlc_log_text.specs.Columns.{begins_as_header, column_in, columns_by, label_part, names_sender};
ghost use Rattle.hlc_log_text.specs.LogColumn.{column_name};

use crate::bad_column::bad_of_carried;
use crate::extras::{Beside, Extras};
use crate::log_column::LogColumn;
use crate::log_word::LogWord;
use crate::record_syntax::RecordSyntax;
use crate::stamp_form::StampForm;
use csv::ByteRecord;
use hlc_causality::MAX_FLOOR_C;
use hlc_csv::{field, number};
use hlc_stamp::Stamp;
use std::alloc::AllocError;

// Where the columns stand that a header names, or that all records of a syntax have. One that a header doesn't name stands past the last, so
// that its field is empty in each record.
#[derive(Clone, Copy)]
pub(crate) struct Columns {
    // How many there are.
    pub(crate) count: usize,
    pub(crate) node: usize,
    pub(crate) reading: usize,
    pub(crate) l: usize,
    pub(crate) c: usize,
    // If a stamp is one field.
    pub(crate) stamp: usize,
    // Of what a received message carried, if a stamp is one field.
    pub(crate) carried: usize,
    // If it is two.
    pub(crate) carried_l: usize,
    pub(crate) carried_c: usize,
    pub(crate) message: usize,
    // Of the node that sent a received message, if the record names that in place of it.
    pub(crate) from: usize,
    // By what an event stands among those of its node.
    pub(crate) seq: usize,
    pub(crate) label: usize,
}

// Whether a record begins as a header does.
pub(crate) fn begins_as_header(fields: &ByteRecord) -> bool
    ensures { result ≡ begins_as_header (fields_of fields.now) }
{
    field(fields, 0) == LogColumn::Kind.name().as_bytes()
}

// Whether a receive names the node that sent its message, in place of this.
pub(crate) fn names_sender(from: Option<&[u8]>, message: &[u8]) -> bool
    ensures { result ≡ names_sender (option_map (λ from. from.now) from.entry) message.now }
{
    match from {
        Some(from) => message.is_empty() && !from.is_empty(),
        None => false,
    }
}

// The columns of a log in a syntax, whose header names these, if it has one.
pub(crate) fn columns_by(syntax: RecordSyntax, named: Option<Columns>) -> Option<Columns>
    ensures { result ≡ columns_by syntax named }
{
    match syntax {
        RecordSyntax::Csv => named,
        RecordSyntax::JsonLines => Some(Columns::all()),
    }
}

// Where a column stands: the first of its name.
fn column(header: &ByteRecord, column: LogColumn) -> usize
    ensures { result ≡ column_in (fields_of header.now) (column_name column) }
{
    place_of(header, column.name().as_bytes())
}

// Where the first column of a name stands.
fn place_of(header: &ByteRecord, name: &[u8]) -> usize
    ensures { result ≡ column_in (fields_of header.now) name.now }
{
    for place in 0..header.len() {
        if field(header, place) == name {
            return place;
        }
    }
    header.len()
}

// Adds a field of a record to another one.
fn push_place(fields: &ByteRecord, place: usize, placed: &mut ByteRecord) -> Result<(), AllocError>
    requires { partial_of placed.old ≡ [] }
    ensures added { OnOk result (fields_of placed.new ≡ fields_of placed.old ++ field_of (fields_of fields.now) place ∷ []) }
    ensures whole { OnOk result (partial_of placed.new ≡ []) }
{
    placed.push_field(field(fields, place))
}

// Adds a label to a record, if it isn't empty.
fn push_label(label: &[u8], placed: &mut ByteRecord) -> Result<(), AllocError>
    requires { partial_of placed.old ≡ [] }
    ensures { OnOk result (fields_of placed.new ≡ fields_of placed.old ++ label_part label.now) }
{
    if label.is_empty() {
        return Ok(());
    }
    placed.push_field(label)
}

impl Columns {
    ghost use Rattle.hlc_log_text.specs.Columns.{all_columns_in_place, arranged, carried_first, carried_for, carried_second, columns_of, extras_for, from_in, is_complete, message_part, seq_in, stamp_part};

    // Those that a header names.
    pub(crate) fn named(header: &ByteRecord) -> Columns
        ensures { result ≡ columns_of (fields_of header.now) }
    {
        Columns {
            count: header.len(),
            node: column(header, LogColumn::Node),
            reading: column(header, LogColumn::Reading),
            l: column(header, LogColumn::L),
            c: column(header, LogColumn::C),
            stamp: column(header, LogColumn::Stamp),
            carried: column(header, LogColumn::Carried),
            carried_l: column(header, LogColumn::CarriedL),
            carried_c: column(header, LogColumn::CarriedC),
            message: column(header, LogColumn::Message),
            from: column(header, LogColumn::From),
            seq: column(header, LogColumn::Seq),
            label: column(header, LogColumn::Label),
        }
    }

    // All, in the order of `LogColumn`.
    pub(crate) fn all() -> Columns
        ensures { result ≡ all_columns_in_place }
    {
        Columns {
            count: 13,
            node: 1,
            reading: 2,
            l: 3,
            c: 4,
            stamp: 5,
            message: 6,
            from: 7,
            carried: 8,
            carried_l: 9,
            carried_c: 10,
            seq: 11,
            label: 12,
        }
    }

    // Whether those are named that each event needs.
    pub(crate) fn are_complete(self, form: StampForm) -> bool
        ensures { result ≡ is_complete form self }
    {
        let has_stamp = match form {
            StampForm::Pair => self.l < self.count && self.c < self.count,
            StampForm::Dotted | StampForm::Packed(_) => self.stamp < self.count,
        };
        self.node < self.count && has_stamp
    }

    // Adds the fields of a stamp.
    fn push_stamp(
        self,
        form: StampForm,
        fields: &ByteRecord,
        placed: &mut ByteRecord,
    ) -> Result<(), AllocError>
        requires { partial_of placed.old ≡ [] }
        ensures added { OnOk result (fields_of placed.new ≡ fields_of placed.old
            ++ stamp_part form self (fields_of fields.now)) }
        ensures whole { OnOk result (partial_of placed.new ≡ []) }
    {
        match form {
            StampForm::Pair => {
                push_place(fields, self.l, placed)?;
                push_place(fields, self.c, placed)
            }
            StampForm::Dotted | StampForm::Packed(_) => push_place(fields, self.stamp, placed),
        }
    }

    // Adds the field of a message, if an event of the word has one.
    fn push_message(
        self,
        word: LogWord,
        fields: &ByteRecord,
        placed: &mut ByteRecord,
    ) -> Result<(), AllocError>
        requires { partial_of placed.old ≡ [] }
        ensures added { OnOk result (fields_of placed.new ≡ fields_of placed.old
            ++ message_part word self (fields_of fields.now)) }
        ensures whole { OnOk result (partial_of placed.new ≡ []) }
    {
        match word {
            LogWord::Local | LogWord::Restart => Ok(()),
            LogWord::Send | LogWord::Receive => push_place(fields, self.message, placed),
        }
    }

    // Puts the fields of a record that begins with the word of an event into the places that they have in a log without a header. If it
    // doesn't have as many as the header, its word alone.
    pub(crate) fn arrange(
        self,
        form: StampForm,
        word: LogWord,
        fields: &ByteRecord,
        placed: &mut ByteRecord,
    ) -> Result<(), AllocError>
        ensures { OnOk result (fields_of placed.new ≡ arranged form self word (fields_of fields.now)) }
    {
        placed.clear();
        push_place(fields, 0, placed)?;
        if fields.len() != self.count {
            return Ok(());
        }
        push_place(fields, self.node, placed)?;
        push_place(fields, self.reading, placed)?;
        self.push_stamp(form, fields, placed)?;
        self.push_message(word, fields, placed)?;
        push_label(field(fields, self.label), placed)
    }

    // The first field of a carried stamp.
    fn first_carried(self, form: StampForm, fields: &ByteRecord) -> &[u8]
        ensures { result.now ≡ carried_first form self (fields_of fields.now) }
    {
        match form {
            StampForm::Pair => field(fields, self.carried_l),
            StampForm::Dotted | StampForm::Packed(_) => field(fields, self.carried),
        }
    }

    // The second one, if a stamp has two.
    fn second_carried(self, form: StampForm, fields: &ByteRecord) -> &[u8]
        ensures { result.now ≡ carried_second form self (fields_of fields.now) }
    {
        match form {
            StampForm::Pair => field(fields, self.carried_c),
            StampForm::Dotted | StampForm::Packed(_) => b"".as_slice(),
        }
    }

    // The field of the column `from`, if there is such a column.
    fn from(self, fields: &ByteRecord) -> Option<&[u8]>
        ensures { option_map (λ from. from.now) result ≡ from_in self (fields_of fields.now) }
    {
        if self.from >= self.count {
            return None;
        }
        Some(field(fields, self.from))
    }

    // By what the event of a record stands among those of its node, if that is well written: by 0 if its field is empty.
    #[inline]
    fn seq(self, fields: &ByteRecord) -> Option<u64>
        ensures { result ≡ seq_in self (fields_of fields.now) }
    {
        let seq = field(fields, self.seq);
        if seq.is_empty() {
            return Some(0);
        }
        number(seq)
    }

    // What a record that begins with the word of an event tells in the columns that only a header names, or the first of these that is badly written.
    fn extras(
        self,
        form: StampForm,
        word: LogWord,
        fields: &ByteRecord,
    ) -> Result<Extras, LogColumn>
        ensures { result ≡ extras_for form self word (fields_of fields.now) }
    {
        let carried = self.carried(form, word, fields)?;
        let seq = self.seq(fields).ok_or(LogColumn::Seq)?;
        Ok(Extras { carried, seq })
    }

    // What a record that begins with the word of an event tells beside the fields that have places in a log without a header.
    #[inline]
    pub(crate) fn beside(self, form: StampForm, word: LogWord, fields: &ByteRecord) -> Beside<'_>
        ensures extras { result.extras ≡ extras_for form self word (fields_of fields.now) }
        ensures from { option_map (λ from. from.now) result.from ≡ from_in self (fields_of fields.now) }
    {
        Beside {
            extras: self.extras(form, word, fields),
            from: self.from(fields),
        }
    }

    // What a record that begins with the word of an event tells of the stamp that a message carried, or the column where that is badly written.
    fn carried(
        self,
        form: StampForm,
        word: LogWord,
        fields: &ByteRecord,
    ) -> Result<Option<Stamp>, LogColumn>
        ensures { result ≡ carried_for form self word (fields_of fields.now) }
    {
        if word != LogWord::Receive {
            return Ok(None);
        }
        let first = self.first_carried(form, fields);
        let second = self.second_carried(form, fields);
        let is_needed = names_sender(self.from(fields), field(fields, self.message));
        if first.is_empty() && second.is_empty() {
            return if is_needed {
                Err(bad_of_carried(form, first))
            } else {
                Ok(None)
            };
        }
        match form.stamp_of(first, second) {
            Some(stamp) if stamp.c < MAX_FLOOR_C => Ok(Some(stamp)),
            _ => Err(bad_of_carried(form, first)),
        }
    }
}
