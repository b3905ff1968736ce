ghost use Rattle.std.specs.Prelude.{◌≡◌};
ghost use Rattle.hlc_audit_forms.specs.TextSection.{has_word, section_title, section_word};

use crate::answer_row::is_answer;

// A part of the text, with the rows of a word.
#[derive(Clone, Copy)]
pub(crate) enum TextSection {
    Messages,
    Skipped,
    LeftOut,
    Unsent,
    Resent,
    Outside,
    Unread,
    Unstamped,
    Units,
    // What is answered to questions, whatever the words of the rows.
    Answers,
    Bad,
    // The causes in groups, each above its first places.
    Group,
    Over,
    Node,
    Skew,
}

// The parts, in their order.
pub(crate) const SECTIONS: [TextSection; 15] = [
    TextSection::Messages,
    TextSection::Skipped,
    TextSection::LeftOut,
    TextSection::Unsent,
    TextSection::Resent,
    TextSection::Outside,
    TextSection::Unread,
    TextSection::Unstamped,
    TextSection::Units,
    TextSection::Bad,
    TextSection::Group,
    TextSection::Over,
    TextSection::Node,
    TextSection::Skew,
    TextSection::Answers,
];

impl TextSection {
    // Whether the rows of a word are its own.
    pub(crate) fn has(self, word: &[u8]) -> bool
        ensures { result ≡ has_word self word.now }
    {
        match self {
            TextSection::Answers => is_answer(word),
            TextSection::Group => word == b"group".as_slice() || word == b"place".as_slice(),
            other => word == other.word(),
        }
    }

    // The word of its rows, but for answers, which have many, and for first places.
    pub(crate) fn word(self) -> &'static [u8]
        ensures { result.now ≡ section_word self }
    {
        match self {
            TextSection::Messages => b"messages",
            TextSection::Skipped => b"skipped",
            TextSection::LeftOut => b"left-out",
            TextSection::Unsent => b"unsent",
            TextSection::Resent => b"resent",
            TextSection::Outside => b"outside",
            TextSection::Unread => b"unread",
            TextSection::Unstamped => b"unstamped",
            TextSection::Units => b"units",
            TextSection::Answers => b"",
            TextSection::Bad => b"bad",
            TextSection::Group => b"group",
            TextSection::Over => b"over",
            TextSection::Node => b"node",
            TextSection::Skew => b"skew",
        }
    }

    // What stands above its lines.
    pub(crate) fn title(self) -> &'static [u8]
        ensures { result.now ≡ section_title self }
    {
        match self {
            TextSection::Bad => b"\nWhat is wrong:\n",
            TextSection::Answers => b"\nAnswers:\n",
            TextSection::Group => b"\nCauses, by node and rule, and the first three of each:\n",
            TextSection::Node => {
                b"\nNode                  Events        Ahead  First at            Begun at\n"
            }
            TextSection::Skew => {
                b"\nFrom              To                      Ahead  Sent at             Received at\n"
            }
            TextSection::Over => {
                b"\nOver the limit        Events        Ahead  First at            Begun at\n"
            }
            TextSection::Messages => b"\n",
            _ => b"",
        }
    }
}
