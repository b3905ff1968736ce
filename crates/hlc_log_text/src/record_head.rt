ghost use Rattle.std.specs.Prelude.{◌≡◌, option_map};
ghost use Rattle.csv.specs.Records.{fields_of};
ghost use Rattle.hlc_log_text.specs.NamedEvent.{assumed_reading, before_extras, has_good_names, head_of, head_with, if_reading, is_bad_reading, is_name, is_received_name, is_sent_name, label_of, message_place, name_column, number_column, reading_of, reading_with, restart_head, stamp_told, tolerated, whole_head_of};
ghost use Rattle.hlc_log_text.specs.LogWord.{has_fields_of};
ghost use Rattle.hlc_log_text.specs.Units.{in_unit_of_l};

use crate::bad_column::bad_of_stamp;
use crate::bad_log::BadLog;
use crate::columns::names_sender;
use crate::extras::{Beside, Extras};
use crate::log_column::LogColumn;
use crate::log_rules::LogRules;
use crate::log_word::LogWord;
use crate::stamp_form::StampForm;
use crate::units::Units;
use csv::ByteRecord;
use hlc_causality::MAX_FLOOR_C;
use hlc_csv::{field, number};
use hlc_log_line::MAX_NAME_LEN;
use hlc_stamp::{MAX_READING, Stamp};

/// Where the name of a node stands in a record whose fields are in their places.
pub const NODE_PLACE: usize = 1;

// Where a reading stands in a record.
const READING_PLACE: usize = 2;

// Where a stamp stands in a record.
const STAMP_PLACE: usize = 3;

/// What a record of a log says, but for its names.
#[derive(Clone, Copy)]
pub struct RecordHead {
    /// The word with which it begins.
    pub word: LogWord,
    /// What the clock read, as `LogEvent` has it.
    pub reading: u64,
    /// Whether it tells that.
    pub has_reading: bool,
    /// The stamp: (0, 0) if it tells none.
    pub stamp: Stamp,
    /// Whether it tells that.
    pub has_stamp: bool,
}

// A number of the unit of readings in the unit of `l`.
#[inline]
fn in_unit_of_l(form: StampForm, units: Option<Units>, number: u64) -> u128
    ensures { result ≡ in_unit_of_l form units number }
{
    match units {
        None => u128::from(number),
        Some(units) => units.convert(form, number),
    }
}

// A number that a log writes, as the reading that it is in the unit of `l`.
#[inline]
fn if_reading(number: u64, in_unit_of_l: u128) -> Option<u64>
    ensures { result ≡ if_reading number in_unit_of_l }
{
    if number >= 1 && in_unit_of_l <= u128::from(MAX_READING) {
        Some(in_unit_of_l as u64)
    } else {
        None
    }
}

// The reading that a field writes, in the unit of `l`.
#[inline]
fn reading(rules: LogRules, field: &[u8]) -> Option<u64>
    ensures { result ≡ reading_of rules field.now }
{
    let number = number(field)?;
    if_reading(number, in_unit_of_l(rules.form, rules.units, number))
}

// What a clock is taken to have read at an event with a stamp if its record doesn't tell.
#[inline]
fn assumed_reading(stamp: Stamp) -> u64
    ensures { result ≡ assumed_reading stamp }
{
    stamp.l.clamp(1, MAX_READING)
}

// What a clock is taken to have read that is known to within a tolerance.
#[inline]
fn tolerated(tolerance: u64, reading: u64, l: u64) -> u64
    ensures { result ≡ tolerated tolerance reading l }
{
    let least = reading.saturating_sub(tolerance);
    reading.min(l.max(least)).max(1)
}

// The reading of an event with a stamp, by its field.
#[inline]
fn reading_with(rules: LogRules, field: &[u8], stamp: Stamp) -> Option<u64>
    ensures { result ≡ reading_with rules field.now stamp }
{
    if field.is_empty() {
        return Some(assumed_reading(stamp));
    }
    let reading = reading(rules, field)?;
    Some(tolerated(rules.tolerance, reading, stamp.l))
}

// Whether a field may be a name.
#[inline]
pub(crate) fn may_be_name(field: &[u8]) -> bool
    ensures { result ≡ is_name field.now }
{
    !field.is_empty() && field.len() <= MAX_NAME_LEN
}

/// Where the name of the message stands in a record whose fields are in their places, if it has one.
#[inline]
pub fn message_place(form: StampForm) -> usize
    ensures { result ≡ message_place form }
{
    STAMP_PLACE + form.field_count()
}

// Whether a field may be the name of a sent message, which may be empty if there is the column `from`.
#[inline]
fn may_be_sent(from: Option<&[u8]>, name: &[u8]) -> bool
    ensures { result ≡ is_sent_name (option_map (λ from. from.now) from.entry) name.now }
{
    match from {
        Some(_) => name.len() <= MAX_NAME_LEN,
        None => may_be_name(name),
    }
}

// Whether a field may be the name of a received message, which may be empty if the field of the column `from` names the sending node.
#[inline]
fn may_be_received(from: Option<&[u8]>, name: &[u8]) -> bool
    ensures { result ≡ is_received_name (option_map (λ from. from.now) from.entry) name.now }
{
    match from {
        Some(from) if name.is_empty() => may_be_name(from),
        _ => may_be_name(name),
    }
}

// Whether the names of a record of a word may be such, with the field of the column `from`, if there is such a column.
#[inline]
fn names_are_good(form: StampForm, word: LogWord, from: Option<&[u8]>, fields: &ByteRecord) -> bool
    ensures { result ≡ has_good_names form word (option_map (λ from. from.now) from.entry) (fields_of fields.now) }
{
    if !may_be_name(field(fields, NODE_PLACE)) {
        return false;
    }
    let message = field(fields, message_place(form));
    match word {
        LogWord::Local | LogWord::Restart => true,
        LogWord::Send => may_be_sent(from, message),
        LogWord::Receive => may_be_received(from, message),
    }
}

// What the fields of a stamp tell in a record of a word, if they are well written. At a receive they may be empty.
#[inline]
fn told_stamp(form: StampForm, word: LogWord, fields: &ByteRecord) -> Option<Option<Stamp>>
    ensures { result ≡ stamp_told form word (fields_of fields.now) }
{
    if word == LogWord::Receive && form.is_empty(fields, STAMP_PLACE) {
        return Some(None);
    }
    let stamp = form.parse(fields, STAMP_PLACE)?;
    Some(Some(stamp))
}

// The numbers of a record of a word.
#[inline]
fn make_head(rules: LogRules, word: LogWord, fields: &ByteRecord) -> Option<RecordHead>
    ensures { result ≡ head_with rules word (fields_of fields.now) }
{
    let told = told_stamp(rules.form, word, fields)?;
    let stamp = told.unwrap_or(Stamp { l: 0, c: 0 });
    let read = field(fields, READING_PLACE);
    let reading = reading_with(rules, read, stamp)?;
    match word {
        LogWord::Local | LogWord::Send | LogWord::Receive => Some(RecordHead {
            word,
            reading,
            has_reading: !read.is_empty(),
            stamp,
            has_stamp: told.is_some(),
        }),
        LogWord::Restart => restart_head(stamp),
    }
}

// What a record of a restart says with a stamp, to which the clock was restored. It tells no reading.
#[inline]
fn restart_head(stamp: Stamp) -> Option<RecordHead>
    ensures { result ≡ restart_head stamp }
{
    if stamp.c > MAX_FLOOR_C {
        return None;
    }
    Some(RecordHead {
        word: LogWord::Restart,
        reading: assumed_reading(stamp),
        has_reading: false,
        stamp,
        has_stamp: true,
    })
}

// Whether a record has as many fields as one of a word, with a label or without.
#[inline]
fn fields_are_right(form: StampForm, word: LogWord, count: usize) -> bool
    ensures { result ≡ has_fields_of form word count }
{
    let expected = word.field_count(form);
    count == expected || count == expected + 1
}

// The label of a record of a word and as many fields as it has, if it has one.
#[inline]
pub(crate) fn label(form: StampForm, word: LogWord, fields: &ByteRecord) -> Option<&[u8]>
    ensures { option_map (λ label. label.now) result ≡ label_of form word (fields_of fields.now) }
{
    fields.get(word.field_count(form))
}

// Whether a reading is there and badly written.
fn is_bad_reading(rules: LogRules, field: &[u8]) -> bool
    ensures { result ≡ is_bad_reading rules field.now }
{
    !field.is_empty() && reading(rules, field).is_none()
}

// The column of a record whose numbers aren't there.
fn number_column(rules: LogRules, fields: &ByteRecord) -> LogColumn
    ensures { result ≡ number_column rules (fields_of fields.now) }
{
    if is_bad_reading(rules, field(fields, READING_PLACE)) {
        return LogColumn::Reading;
    }
    bad_of_stamp(rules.form, field(fields, STAMP_PLACE))
}

// The column of a record whose names aren't good.
fn name_column(form: StampForm, from: Option<&[u8]>, fields: &ByteRecord) -> LogColumn
    ensures { result ≡ name_column form (option_map (λ from. from.now) from.entry) (fields_of fields.now) }
{
    if !may_be_name(field(fields, NODE_PLACE)) {
        return LogColumn::Node;
    }
    if names_sender(from, field(fields, message_place(form))) {
        LogColumn::From
    } else {
        LogColumn::Message
    }
}

// Reads a record of a word: the number of fields is checked first, then the numbers, then the names.
fn parse_head(
    rules: LogRules,
    word: LogWord,
    from: Option<&[u8]>,
    fields: &ByteRecord,
) -> Result<RecordHead, BadLog>
    ensures { result ≡ head_of rules word (option_map (λ from. from.now) from.entry) (fields_of fields.now) }
{
    if !fields_are_right(rules.form, word, fields.len()) {
        return Err(BadLog::Fields);
    }
    let Some(head) = make_head(rules, word, fields) else {
        return Err(BadLog::Number(number_column(rules, fields)));
    };
    if !names_are_good(rules.form, word, from, fields) {
        return Err(BadLog::Name(name_column(rules.form, from, fields)));
    }
    Ok(head)
}

// The first reason of a record that is bad for this one, and because its carried stamp or its seq is badly written, in a column.
fn before_extras(why: BadLog, extra: LogColumn) -> BadLog
    ensures { result ≡ before_extras why extra }
{
    match why {
        BadLog::Fields | BadLog::Number(_) => why,
        _ => BadLog::Number(extra),
    }
}

// Reads a record of a word, with the stamp that it tells as carried and its seq, which are numbers like the others, and the last.
pub(crate) fn parse_whole(
    rules: LogRules,
    word: LogWord,
    fields: &ByteRecord,
    beside: Beside<'_>,
) -> Result<(RecordHead, Extras), BadLog>
    ensures { result ≡ whole_head_of rules word (option_map (λ from. from.now) beside.entry.from) (fields_of fields.now) beside.entry.extras }
{
    match (parse_head(rules, word, beside.from, fields), beside.extras) {
        (Ok(head), Ok(extras)) => Ok((head, extras)),
        (Err(why), Ok(_)) => Err(why),
        (Ok(_), Err(column)) => Err(BadLog::Number(column)),
        (Err(why), Err(column)) => Err(before_extras(why, column)),
    }
}
