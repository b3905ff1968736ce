/// The word with which a record of a trace begins.
#[derive(Clone, Copy)]
pub(crate) enum TraceWord {
    /// `local,NODE,READING,L,C`.
    Local,
    /// `send,NODE,READING,L,C`, or `sync` in its place.
    Send,
    /// `receive,NODE,READING,SEND,L,C`.
    Receive,
}

impl TraceWord {
    ghost use Rattle.std.specs.Prelude.{◌≡◌, ◌≤◌};
    ghost use Rattle.hlc_trace.specs.Claim.{stamp_place, trace_field_count, trace_word_of};

    /// The word that a field spells.
    pub(crate) fn parse(field: &[u8]) -> Option<TraceWord>
        ensures { result ≡ trace_word_of field.now }
    {
        if field == b"local".as_slice() {
            Some(TraceWord::Local)
        } else if field == b"send".as_slice() || field == b"sync".as_slice() {
            Some(TraceWord::Send)
        } else if field == b"receive".as_slice() {
            Some(TraceWord::Receive)
        } else {
            None
        }
    }

    /// How many fields a record of the word has.
    pub(crate) fn field_count(self) -> usize
        ensures { result ≡ trace_field_count self }
    {
        match self {
            TraceWord::Local | TraceWord::Send => 5,
            TraceWord::Receive => 6,
        }
    }

    /// Where the claimed stamp stands: its `l`, and then its `c` at the next place.
    pub(crate) fn stamp_place(self) -> usize
        ensures value { result ≡ stamp_place self }
        ensures early { result ≤ 4 }
    {
        match self {
            TraceWord::Local | TraceWord::Send => 3,
            TraceWord::Receive => 4,
        }
    }
}
