use crate::location::Location;
use crate::log_column::LogColumn;

/// Why a record of a log is bad, so that it tells of no event and asks no question: the first of these that holds.
#[derive(Clone, Copy, Debug, PartialEq, Eq)]
pub enum BadLog {
    /// Its first field is no word of a log.
    Word,
    /// It is a header, and lacks a column that each event needs: the one of its node, or one of its stamp.
    Header,
    /// It stands for a line of JSON lines that lacks a column which its event needs: the first such. That is the column of its node; one of its
    /// stamp, of which a receive may lack all; at a receive that of its message, if it doesn't name its sender either; or one of the stamp that
    /// the message carried, if it names its sender in place of that.
    Missing(LogColumn),
    /// It has too few or too many fields for its word.
    Fields,
    /// Its reading is there and no number from 1 to `MAX_READING`, or it has no stamp in the form of the log, of which a receive may leave all
    /// fields empty, or it tells of a restart and `c` of its stamp is above `MAX_FLOOR_C`, or of a receive whose carried stamp is there, but
    /// not in the form of the log or without room above its `c`, or isn't there, though the receive names its sender in place of its message.
    /// The column is the first such in this order; of a stamp that is two fields, that of `l`, unless `l` is a number.
    Number(LogColumn),
    /// A line in its question is no number.
    Line,
    /// The name of its node or of its message is empty, or longer than `MAX_NAME_LEN`, or that of a sender in place of a message is. In a log with
    /// a column `from` the message of a send may be empty, and so may that of a receive that names its sender there. The column is the first such.
    Name(LogColumn),
    /// It sends a message that an earlier record sends. It is one of the bad only where these are left out, and no send is said to be the one that
    /// receives of such a message are of (`LogRules::leaves_sent`); else the log is read, and has no causal order.
    SentTwice,
    /// It tells of an event that has no place in any causal order: receives wait for one another, and it is one of these or comes after one. No record
    /// is read so: whoever opens a log leaves such events out where bad records are, and else the log isn't opened.
    Cycle,
    /// It names one more node than `MAX_LOG_NODES`.
    Node,
    /// Its last field begins with a quotation mark that nothing closes, so that it took in the rest of the log. Then no other reason is told.
    Quote,
}

/// A record that is bad, told by its line over all files.
#[derive(Clone, Copy, Debug, PartialEq, Eq)]
pub struct BadLine {
    /// The line on which it begins, from 1.
    pub line: u32,
    /// Why it is bad.
    pub why: BadLog,
}

/// A record that is bad, told by where it stands in the files that a log was put together of.
#[derive(Debug, Drop)]
pub struct BadRecord {
    /// The line on which it begins.
    pub location: Location,
    /// Why it is bad.
    pub why: BadLog,
}

impl BadLog {
    ghost use Rattle.std.specs.Prelude.{◌≡◌};
    ghost use Rattle.hlc_log_text.specs.BadLog.{bad_log_column, bad_log_word};
    ghost use Rattle.hlc_log_text.specs.FaultRule.{is_of_record};

    /// The word of the row that answers it.
    pub fn word(self) -> &'static [u8]
        ensures { result.now ≡ bad_log_word self }
    {
        match self {
            BadLog::Word => b"word",
            BadLog::Header => b"header",
            BadLog::Missing(_) => b"field",
            BadLog::Fields => b"fields",
            BadLog::Number(_) | BadLog::Line => b"number",
            BadLog::Name(_) => b"name",
            BadLog::SentTwice => b"sent-twice",
            BadLog::Cycle => b"cycle",
            BadLog::Node => b"node",
            BadLog::Quote => b"quote",
        }
    }

    // Whether a record that is bad for this reason can be left out: what stands after it is read as it would be without it.
    pub(crate) fn is_of_record(self) -> bool
        ensures { result ≡ is_of_record self }
    {
        match self {
            BadLog::Header | BadLog::Quote => false,
            BadLog::Word
            | BadLog::Missing(_)
            | BadLog::Fields
            | BadLog::Number(_)
            | BadLog::Line
            | BadLog::Name(_)
            | BadLog::SentTwice
            | BadLog::Cycle
            | BadLog::Node => true,
        }
    }

    /// The column that the row names besides, if it names one.
    pub fn column(self) -> Option<LogColumn>
        ensures { result ≡ bad_log_column self }
    {
        match self {
            BadLog::Missing(column) | BadLog::Number(column) | BadLog::Name(column) => Some(column),
            BadLog::Word
            | BadLog::Header
            | BadLog::Fields
            | BadLog::Line
            | BadLog::SentTwice
            | BadLog::Cycle
            | BadLog::Node
            | BadLog::Quote => None,
        }
    }
}
