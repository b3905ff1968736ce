/// The word with which a record begins.
#[derive(Clone, Copy)]
pub(crate) enum Word {
    /// `write,NODE,READING,KEY,VALUE`.
    Write,
    /// `erase,NODE,READING,KEY`.
    Erase,
    /// `send,NODE,READING,TARGET,KEY`.
    Send,
    /// `sync,NODE,READING,TARGET`.
    Sync,
    /// `deliver,NODE,READING,SEND`.
    Deliver,
    /// `pull,NODE,READING,KEY,VALUE`.
    Pull,
    /// `lose,SEND`.
    Lose,
    /// `inbox,NODE`.
    Inbox,
    /// `get,NODE,KEY`.
    Get,
    /// `table,NODE`.
    Table,
    /// `explain,EVENT`.
    Explain,
    /// `check,EVENT` and any number of events after it.
    Check,
    /// `relation,EVENT,EVENT`.
    Relation,
    /// `influenced,EVENT`.
    Influenced,
    /// `why,EVENT,EVENT`.
    Why,
    /// `tainted,EVENT`.
    Tainted,
    /// `drift,NODE`.
    Drift,
    /// `snapshot,L,C,NODE`.
    Snapshot,
}

// The words as they are spelt, which are looked for in this order: first those that long scripts are made of.
const SPELLINGS: [(&[u8], Word); 18] = [
    (b"write", Word::Write),
    (b"send", Word::Send),
    (b"deliver", Word::Deliver),
    (b"pull", Word::Pull),
    (b"lose", Word::Lose),
    (b"erase", Word::Erase),
    (b"sync", Word::Sync),
    (b"get", Word::Get),
    (b"inbox", Word::Inbox),
    (b"table", Word::Table),
    (b"explain", Word::Explain),
    (b"check", Word::Check),
    (b"relation", Word::Relation),
    (b"influenced", Word::Influenced),
    (b"why", Word::Why),
    (b"tainted", Word::Tainted),
    (b"drift", Word::Drift),
    (b"snapshot", Word::Snapshot),
];

impl Word {
    ghost use Rattle.std.specs.Prelude.{◌≡◌};
    ghost use Rattle.hlc_text.specs.Statement.{field_count_of, takes_fields, word_of};

    /// The word that a field spells.
    pub(crate) fn parse(field: &[u8]) -> Option<Word>
        ensures { result ≡ word_of field.now }
    {
        SPELLINGS
            .iter()
            .find(|(spelling, _)| *spelling == field)
            .map(|(_, word)| *word)
    }

    /// How many fields a record of the word has, at least.
    pub(crate) fn field_count(self) -> usize
        ensures { result ≡ field_count_of self }
    {
        match self {
            Word::Write | Word::Send | Word::Pull => 5,
            Word::Erase | Word::Sync | Word::Deliver | Word::Snapshot => 4,
            Word::Get | Word::Relation | Word::Why => 3,
            Word::Lose | Word::Inbox | Word::Table | Word::Explain | Word::Check => 2,
            Word::Influenced | Word::Tainted | Word::Drift => 2,
        }
    }

    /// Whether a record of the word may have so many fields.
    pub(crate) fn takes(self, fields: usize) -> bool
        ensures { result ≡ takes_fields self fields }
    {
        match self {
            Word::Check => fields >= self.field_count(),
            _ => fields == self.field_count(),
        }
    }
}
