ghost use Rattle.std.specs.Prelude.{◌≡◌, ◌<◌, IfOk, None, Some, drop, length, option_map};
ghost use Rattle.csv.specs.Records.{fields_of};
ghost use Rattle.hlc_csv.specs.Number.{number_of};
ghost use Rattle.hlc_log_text.specs.Question.{asked_by_word, asked_of, check_from, drift_asked, first_asked, location_by, location_in, location_of_field, locations_in, numbered, plain_read, relation_from, why_from};

use crate::bad_log::BadLog;
use crate::cause_word::CauseWord;
use crate::location::Location;
use crate::log_column::LogColumn;
use crate::question_word::QuestionWord;
use crate::record_head::may_be_name;
use csv::ByteRecord;
use hlc_csv::{field, number};
use hlc_pages::Bytes;
use memchr::memrchr;
use std::alloc::{AllocError, Global};

/// A question about a log, which names events by where their lines stand: `LINE`, or `NAME:LINE` in a file. That may be the line of no event.
#[derive(Debug, Drop)]
pub enum LogQuestion {
    /// What forces the least stamp of an event.
    Explain(Location),
    /// Whether events explain the least stamp of one.
    Check {
        /// That event.
        event: Location,
        /// The events, in the order in which the question lists them.
        chain: Vec<Location>,
    },
    /// How two events stand in happened-before.
    Relation {
        /// The first event.
        first: Location,
        /// The second event.
        second: Location,
    },
    /// Which events an event happened before.
    Influenced(Location),
    /// How far the stamps of the node of this name ran ahead of its readings.
    Drift(Bytes<'static>),
    /// Where the `l` that the log claims for an event came from.
    Claimed(Location),
    /// What is known of an event.
    Event(Location),
    /// How one event came to know of another.
    Why {
        /// The event of which the other knows.
        first: Location,
        /// The event that came to know of it.
        second: Location,
    },
    /// Which least stamps are higher for the floor of an event.
    Tainted(Location),
    /// Which event of a node is the first to break a rule.
    First {
        /// The name of the node.
        node: Bytes<'static>,
        /// The rule.
        rule: CauseWord,
    },
}

// The line of this number in a file of a name that it may have.
fn line_in_file(alloc: Global, name: &[u8], number: u64) -> Result<Location, AllocError>
    ensures { IfOk result (λ location. location ≡ record { file = Some name.now; line = number }) }
{
    Ok(Location {
        file: Some(Bytes::from_slice(alloc, name)?),
        line: number,
    })
}

// What a field names whose last colon stands at a place.
fn location_after(alloc: Global, field: &[u8], colon: usize) -> Result<Option<Location>, AllocError>
    requires { colon < length field.now }
    ensures { IfOk result (λ location. location ≡ location_by field.now (Some colon)) }
{
    let name = &field[..colon];
    if !may_be_name(name) {
        return Ok(None);
    }
    match number(&field[colon + 1..]) {
        Some(number) => Ok(Some(line_in_file(alloc, name, number)?)),
        None => Ok(None),
    }
}

// The line whose number a field is, in no file.
fn line_alone(field: &[u8]) -> Option<Location>
    ensures { result ≡ numbered None (number_of field.now) }
{
    let line = number(field)?;
    Some(Location { file: None, line })
}

/// Where a text says that a line stands: `LINE`, or `NAME:LINE` by its last colon, with a NAME that a file may have.
pub fn location_of(alloc: Global, field: &[u8]) -> Result<Option<Location>, AllocError>
    ensures { IfOk result (λ location. location ≡ location_of_field field.now) }
{
    match memrchr(b':', field) {
        Some(colon) => location_after(alloc, field, colon),
        None => Ok(line_alone(field)),
    }
}

// What the field at a place names.
fn location_at(
    alloc: Global,
    fields: &ByteRecord,
    place: usize,
) -> Result<Option<Location>, AllocError>
    ensures { IfOk result (λ location. location ≡ location_in (fields_of fields.now) place) }
{
    location_of(alloc, field(fields, place))
}

// What the fields from a place on name, if each names a location.
fn read_locations(
    alloc: Global,
    fields: &ByteRecord,
    start: usize,
) -> Result<Option<Vec<Location>>, AllocError>
    ensures { IfOk result (λ found. option_map (λ list. list.items) found ≡ locations_in (drop start (fields_of fields.now))) }
{
    let mut found = Vec::new(alloc);
    for place in start..fields.len() {
        let Some(location) = location_at(alloc, fields, place)? else {
            return Ok(None);
        };
        found.push(location)?;
    }
    Ok(Some(found))
}

// The question whether events explain the stamp of one, if their fields name locations.
fn read_check(
    alloc: Global,
    event: Location,
    fields: &ByteRecord,
) -> Result<Result<LogQuestion, BadLog>, AllocError>
    ensures { IfOk result (λ read. plain_read read ≡ check_from event (fields_of fields.now)) }
{
    match read_locations(alloc, fields, 2)? {
        Some(chain) => Ok(Ok(LogQuestion::Check { event, chain })),
        None => Ok(Err(BadLog::Line)),
    }
}

// The question how an event and another stand in happened-before, if the field of the other names a location.
fn read_relation(
    alloc: Global,
    first: Location,
    fields: &ByteRecord,
) -> Result<Result<LogQuestion, BadLog>, AllocError>
    ensures { IfOk result (λ read. plain_read read ≡ relation_from first (fields_of fields.now)) }
{
    match location_at(alloc, fields, 2)? {
        Some(second) => Ok(Ok(LogQuestion::Relation { first, second })),
        None => Ok(Err(BadLog::Line)),
    }
}

// The question how an event came to know of one, if the field of that event names a location.
fn read_why(
    alloc: Global,
    first: Location,
    fields: &ByteRecord,
) -> Result<Result<LogQuestion, BadLog>, AllocError>
    ensures { IfOk result (λ read. plain_read read ≡ why_from first (fields_of fields.now)) }
{
    match location_at(alloc, fields, 2)? {
        Some(second) => Ok(Ok(LogQuestion::Why { first, second })),
        None => Ok(Err(BadLog::Line)),
    }
}

// The question about the node of this name, if a node may have such a name.
fn read_drift(alloc: Global, name: &[u8]) -> Result<Result<LogQuestion, BadLog>, AllocError>
    ensures { IfOk result (λ read. plain_read read ≡ drift_asked name.now) }
{
    if !may_be_name(name) {
        return Ok(Err(BadLog::Name(LogColumn::Node)));
    }
    let name = Bytes::from_slice(alloc, name)?;
    Ok(Ok(LogQuestion::Drift(name)))
}

// The question which event of the node of this name is the first to break the rule of a word, if a node may have such a name, and a rule has the
// word.
fn read_first(
    alloc: Global,
    name: &[u8],
    rule: &[u8],
) -> Result<Result<LogQuestion, BadLog>, AllocError>
    ensures { IfOk result (λ read. plain_read read ≡ first_asked name.now rule.now) }
{
    if !may_be_name(name) {
        return Ok(Err(BadLog::Name(LogColumn::Node)));
    }
    let Some(rule) = CauseWord::parse(rule) else {
        return Ok(Err(BadLog::Fields));
    };
    let node = Bytes::from_slice(alloc, name)?;
    Ok(Ok(LogQuestion::First { node, rule }))
}

// What a record of a word and as many fields as it has asks.
fn make_question(
    alloc: Global,
    word: QuestionWord,
    fields: &ByteRecord,
) -> Result<Result<LogQuestion, BadLog>, AllocError>
    ensures { IfOk result (λ read. plain_read read ≡ asked_by_word word (fields_of fields.now)) }
{
    match (word, location_at(alloc, fields, 1)?) {
        (QuestionWord::Drift, _) => read_drift(alloc, field(fields, 1)),
        (QuestionWord::First, _) => read_first(alloc, field(fields, 1), field(fields, 2)),
        (_, None) => Ok(Err(BadLog::Line)),
        (QuestionWord::Explain, Some(event)) => Ok(Ok(LogQuestion::Explain(event))),
        (QuestionWord::Check, Some(event)) => read_check(alloc, event, fields),
        (QuestionWord::Relation, Some(first)) => read_relation(alloc, first, fields),
        (QuestionWord::Influenced, Some(event)) => Ok(Ok(LogQuestion::Influenced(event))),
        (QuestionWord::Claimed, Some(event)) => Ok(Ok(LogQuestion::Claimed(event))),
        (QuestionWord::Event, Some(event)) => Ok(Ok(LogQuestion::Event(event))),
        (QuestionWord::Why, Some(first)) => read_why(alloc, first, fields),
        (QuestionWord::Tainted, Some(event)) => Ok(Ok(LogQuestion::Tainted(event))),
    }
}

impl LogQuestion {
    // Reads a record as a question: the word is checked first, then the number of fields, then the numbers or the name.
    pub(crate) fn parse(
        alloc: Global,
        fields: &ByteRecord,
    ) -> Result<Result<LogQuestion, BadLog>, AllocError>
        ensures { IfOk result (λ read. plain_read read ≡ asked_of (fields_of fields.now)) }
    {
        let Some(word) = QuestionWord::parse(field(fields, 0)) else {
            return Ok(Err(BadLog::Word));
        };
        if !word.takes(fields.len()) {
            return Ok(Err(BadLog::Fields));
        }
        make_question(alloc, word, fields)
    }
}
