// Events as records tell of them, by names.

ghost use Rattle.std.specs.Prelude.{◌≡◌, [], unwrap_or};
ghost use Rattle.csv.specs.Records.{fields_of};
ghost use Rattle.hlc_csv.specs.Rows.{field_of};
ghost use Rattle.hlc_log_text.specs.NamedEvent.{if_message, message_place};
ghost use Rattle.hlc_watched_log.specs.Watched.{is_unnamed, kind_of, stamp_column, unwatched_by};

use csv::ByteRecord;
use hlc_csv::field;
use hlc_log::{LogKind, MAX_LOG_NODES, MessageId};
use hlc_log_text::{BadLog, LogColumn, LogWord, StampForm, message_place};

// The name of the message of an event of a word, which is empty if it has none, in a record whose fields are in their places.
pub(crate) fn message_name(form: StampForm, word: LogWord, placed: &ByteRecord) -> &[u8]
    ensures { result.now ≡ unwrap_or (if_message word (field_of (fields_of placed.now) (message_place form))) [] }
{
    match word {
        LogWord::Local | LogWord::Restart => b"",
        LogWord::Send | LogWord::Receive => field(placed, message_place(form)),
    }
}

// What an event of a word is. Its message is told apart by its name, and numbered 0 here, as all are.
pub(crate) fn kind_of(word: LogWord) -> LogKind
    ensures { result ≡ kind_of word }
{
    match word {
        LogWord::Local => LogKind::Local,
        LogWord::Send => LogKind::Send(MessageId(0)),
        LogWord::Receive => LogKind::Receive(MessageId(0)),
        LogWord::Restart => LogKind::Restart,
    }
}

// The first column of a stamp.
fn stamp_column(form: StampForm) -> LogColumn
    ensures { result ≡ stamp_column form }
{
    match form {
        StampForm::Pair => LogColumn::L,
        StampForm::Dotted | StampForm::Packed(_) => LogColumn::Stamp,
    }
}

// Whether an event of a word has a message without a name.
fn is_unnamed(word: LogWord, message: &[u8]) -> bool
    ensures { result ≡ is_unnamed word message.now }
{
    match word {
        LogWord::Local | LogWord::Restart => false,
        LogWord::Send | LogWord::Receive => message.is_empty(),
    }
}

// Why an event of a node of this number can't be watched, if it can't.
pub(crate) fn unwatched(
    form: StampForm,
    word: LogWord,
    has_stamp: bool,
    message: &[u8],
    node: usize,
) -> Option<BadLog>
    ensures { result ≡ unwatched_by form word has_stamp message.now node }
{
    if !has_stamp {
        Some(BadLog::Number(stamp_column(form)))
    } else if is_unnamed(word, message) {
        Some(BadLog::Name(LogColumn::Message))
    } else if node == MAX_LOG_NODES as usize {
        Some(BadLog::Node)
    } else {
        None
    }
}
