ghost use Rattle.std.specs.Prelude.{◌≡◌};
ghost use Rattle.hlc_csv.specs.Rows.{field_of};
ghost use Rattle.csv.specs.Records.{fields_of};
ghost use Rattle.hlc_audit_forms.specs.JsonMember.{bad_columns, cause_columns, member_columns, member_name, member_of_word};

use crate::answer_row::answer_columns;
use crate::json_column::JsonColumn;
use csv::ByteRecord;
use hlc_csv::field;

// A member of the object that an audit is written as.
#[derive(Clone, Copy)]
pub(crate) enum JsonMember {
    Bad,
    Count,
    Cause,
    Node,
    Messages,
    Skew,
    Units,
    Unsent,
    Resent,
    Outside,
    Unread,
    Unstamped,
    Skipped,
    LeftOut,
    Over,
    // What is answered to questions, whatever the words of the rows.
    Answers,
    Group,
}

// The members, in their order.
pub(crate) const MEMBERS: [JsonMember; 17] = [
    JsonMember::Bad,
    JsonMember::Count,
    JsonMember::Cause,
    JsonMember::Node,
    JsonMember::Messages,
    JsonMember::Skew,
    JsonMember::Units,
    JsonMember::Unsent,
    JsonMember::Resent,
    JsonMember::Outside,
    JsonMember::Unread,
    JsonMember::Unstamped,
    JsonMember::Skipped,
    JsonMember::LeftOut,
    JsonMember::Over,
    JsonMember::Answers,
    JsonMember::Group,
];

// The columns of a row that says why the input is no log.
fn bad_columns(why: &[u8]) -> &'static [JsonColumn]
    ensures { result.now ≡ bad_columns why.now }
{
    use JsonColumn::{Column, Line, Message, Row, Why};
    if why == b"sent-twice".as_slice() || why == b"unsent".as_slice() {
        &[Row, Line, Why, Message]
    } else {
        &[Row, Line, Why, Column]
    }
}

// The columns of a cause, by the word of the broken rule.
fn cause_columns(rule: &[u8]) -> &'static [JsonColumn]
    ensures { result.now ≡ cause_columns rule.now }
{
    use JsonColumn::{Before, C, L, Line, Node, Row, Rule, Send, Swapped};
    if rule == b"not-above".as_slice() {
        &[Row, Line, Node, Rule, Before, Swapped]
    } else if rule == b"ahead".as_slice() {
        &[Row, Line, Node, Rule, L, C]
    } else if rule == b"carried".as_slice() {
        &[Row, Line, Node, Rule, Send]
    } else {
        &[Row, Line, Node, Rule]
    }
}

impl JsonMember {
    // The member of the rows of a word.
    pub(crate) fn of_word(word: &[u8]) -> JsonMember
        ensures { result ≡ member_of_word word.now }
    {
        for member in MEMBERS {
            if member.name() == word {
                return member;
            }
        }
        JsonMember::Answers
    }

    // Its name: the word of its rows, but for answers.
    pub(crate) fn name(self) -> &'static [u8]
        ensures { result.now ≡ member_name self }
    {
        match self {
            JsonMember::Bad => b"bad",
            JsonMember::Count => b"count",
            JsonMember::Cause => b"cause",
            JsonMember::Node => b"node",
            JsonMember::Messages => b"messages",
            JsonMember::Skew => b"skew",
            JsonMember::Units => b"units",
            JsonMember::Unsent => b"unsent",
            JsonMember::Resent => b"resent",
            JsonMember::Outside => b"outside",
            JsonMember::Unread => b"unread",
            JsonMember::Unstamped => b"unstamped",
            JsonMember::Skipped => b"skipped",
            JsonMember::LeftOut => b"left-out",
            JsonMember::Over => b"over",
            JsonMember::Answers => b"answers",
            JsonMember::Group => b"group",
        }
    }

    // The columns of a row that is one of its own.
    pub(crate) fn columns(self, fields: &ByteRecord) -> &'static [JsonColumn]
        ensures { result.now ≡ member_columns self (fields_of fields.now) }
    {
        use JsonColumn::{
            Ahead, Events, Factor, From, Line, N, Node, Of, Open, Origin, Receive, Received,
            Repeated, Row, Rule, Send, Sent, To, Verdict, Word,
        };
        match self {
            JsonMember::Bad => bad_columns(field(fields, 2)),
            JsonMember::Count => &[Row, Verdict, N],
            JsonMember::Cause => cause_columns(field(fields, 3)),
            JsonMember::Node => &[Row, Node, Events, Ahead, Line, Origin],
            JsonMember::Messages => &[Row, Sent, Received, Repeated, Open],
            JsonMember::Skew => &[Row, From, To, Ahead, Send, Receive],
            JsonMember::Units => &[Row, Factor],
            JsonMember::Unsent
            | JsonMember::Resent
            | JsonMember::Outside
            | JsonMember::Unread
            | JsonMember::Unstamped => &[Row, N],
            JsonMember::Skipped => &[Row, N, Line],
            JsonMember::LeftOut => &[Row, Word, N, Line],
            JsonMember::Over => &[Row, Node, N, Line, Ahead, Origin],
            JsonMember::Answers => answer_columns(field(fields, 0)),
            JsonMember::Group => &[Row, Node, Rule, Of, N, Line],
        }
    }
}
