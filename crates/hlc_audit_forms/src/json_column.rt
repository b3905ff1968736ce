ghost use Rattle.std.specs.Prelude.{◌≡◌, ◌++◌, OnOk};
ghost use Rattle.std.specs.Char.{is_ascii_digit};
ghost use Rattle.std.specs.List.{list_all};
ghost use Rattle.hlc_audit_forms.specs.JsonColumn.{column_form, column_name, is_decimal, member_text, value_text, without_minus};

use crate::json_text::{put_name, put_string};
use crate::value_form::ValueForm;
use std::alloc::AllocError;

// What a field of a row tells.
#[derive(Clone, Copy)]
pub(crate) enum JsonColumn {
    // The word of the row.
    Row,
    // The line of a record, or of the event that it tells of.
    Line,
    // Why the input is no log, or a question has no answer.
    Why,
    // The column that is at fault.
    Column,
    // A message.
    Message,
    // What is found of a stamp.
    Verdict,
    // How many.
    N,
    // A node.
    Node,
    // The word of a broken rule.
    Rule,
    // The node with whose stamps a rule compares.
    Of,
    // The line of the event above which a stamp isn't.
    Before,
    // Whether two lines stand in each other's place.
    Swapped,
    // `l` of a stamp.
    L,
    // `c` of a stamp.
    C,
    // How many events a node has.
    Events,
    // How far ahead.
    Ahead,
    // The line of the event that brought an L.
    Origin,
    // How many sends.
    Sent,
    // How many receives.
    Received,
    // How many messages that were received more than once.
    Repeated,
    // How many messages that were never received.
    Open,
    // The node that sent.
    From,
    // The node that received.
    To,
    // The line of a send.
    Send,
    // The line of a receive.
    Receive,
    // By how much units differ.
    Factor,
    // The word of a fault.
    Word,
    // The line of another event.
    Other,
    // How two events stand to each other.
    How,
    // Whether lines are a chain.
    IsChain,
    // What a clock read.
    Reading,
    // `l` of the least stamp.
    LeastL,
    // `c` of the least stamp.
    LeastC,
    // A label.
    Label,
}

impl JsonColumn {
    // Its name.
    fn name(self) -> &'static [u8]
        ensures { result.now ≡ column_name self }
    {
        match self {
            JsonColumn::Row => b"row",
            JsonColumn::Line => b"line",
            JsonColumn::Why => b"why",
            JsonColumn::Column => b"column",
            JsonColumn::Message => b"message",
            JsonColumn::Verdict => b"verdict",
            JsonColumn::N => b"n",
            JsonColumn::Node => b"node",
            JsonColumn::Rule => b"rule",
            JsonColumn::Of => b"of",
            JsonColumn::Before => b"before",
            JsonColumn::Swapped => b"swapped",
            JsonColumn::L => b"l",
            JsonColumn::C => b"c",
            JsonColumn::Events => b"events",
            JsonColumn::Ahead => b"ahead",
            JsonColumn::Origin => b"origin",
            JsonColumn::Sent => b"sent",
            JsonColumn::Received => b"received",
            JsonColumn::Repeated => b"repeated",
            JsonColumn::Open => b"open",
            JsonColumn::From => b"from",
            JsonColumn::To => b"to",
            JsonColumn::Send => b"send",
            JsonColumn::Receive => b"receive",
            JsonColumn::Factor => b"factor",
            JsonColumn::Word => b"word",
            JsonColumn::Other => b"other",
            JsonColumn::How => b"how",
            JsonColumn::IsChain => b"is_chain",
            JsonColumn::Reading => b"reading",
            JsonColumn::LeastL => b"least_l",
            JsonColumn::LeastC => b"least_c",
            JsonColumn::Label => b"label",
        }
    }

    // How its values are written.
    fn form(self) -> ValueForm
        ensures { result ≡ column_form self }
    {
        match self {
            JsonColumn::N
            | JsonColumn::L
            | JsonColumn::C
            | JsonColumn::Events
            | JsonColumn::Ahead
            | JsonColumn::Sent
            | JsonColumn::Received
            | JsonColumn::Repeated
            | JsonColumn::Open
            | JsonColumn::Factor
            | JsonColumn::Reading
            | JsonColumn::LeastL
            | JsonColumn::LeastC => ValueForm::Number,
            JsonColumn::Swapped | JsonColumn::IsChain => ValueForm::Truth,
            JsonColumn::Line => ValueForm::Line,
            _ => ValueForm::Text,
        }
    }
}

// A field without the minus sign with which it begins, if it does.
fn without_minus(field: &[u8]) -> &[u8]
    ensures { result.now ≡ without_minus field.now }
{
    match field {
        [first, digits @ ..] if *first == b'-' => digits,
        _ => field,
    }
}

// Whether all bytes are digits.
fn are_digits(digits: &[u8]) -> bool
    ensures { result ≡ list_all is_ascii_digit digits.now }
{
    digits.iter().all(|digit| digit.is_ascii_digit())
}

// Whether a field is digits, behind a minus sign or not.
fn is_decimal(field: &[u8]) -> bool
    ensures { result ≡ is_decimal field.now }
{
    let digits = without_minus(field);
    !digits.is_empty() && are_digits(digits)
}

// Adds a field as the value of a form.
fn put_value(text: &mut Vec<u8>, form: ValueForm, field: &[u8]) -> Result<(), AllocError>
    ensures { OnOk result (text.new.items ≡ text.old.items ++ value_text form field.now) }
{
    match form {
        ValueForm::Text if !field.is_empty() => put_string(text, field),
        ValueForm::Line if !field.is_empty() && field != b"none".as_slice() => {
            put_string(text, field)
        }
        ValueForm::Number if is_decimal(field) => text.extend_from_slice(field),
        ValueForm::Text | ValueForm::Line | ValueForm::Number => text.extend_from_slice(b"null"),
        ValueForm::Truth if field.is_empty() || field == b"no".as_slice() => {
            text.extend_from_slice(b"false")
        }
        ValueForm::Truth => text.extend_from_slice(b"true"),
    }
}

// Adds a field as a member of an object.
pub(crate) fn put_member(
    text: &mut Vec<u8>,
    column: JsonColumn,
    field: &[u8],
) -> Result<(), AllocError>
    ensures { OnOk result (text.new.items ≡ text.old.items ++ member_text column field.now) }
{
    put_name(text, column.name())?;
    put_value(text, column.form(), field)
}
