/// What a row of a log tells of.
#[derive(Clone, Copy, Debug, PartialEq, Eq)]
pub enum LogKind {
    /// An event that is neither a send nor a receive.
    Local,
    /// A send of a message.
    Send,
    /// A receive of a message.
    Receive,
    /// A restart of the node, with its clock restored to a bound that it had kept.
    Restart,
}

impl LogKind {
    ghost use Rattle.std.specs.Prelude.{◌≡◌, ◌≤◌, length};
    ghost use Rattle.hlc_log_line.specs.LogRow.{kind_word};

    // The word with which the row begins.
    pub(crate) fn word(self) -> &'static [u8]
        ensures word { result.now ≡ kind_word self }
        ensures short { length result.now ≤ 7 }
    {
        match self {
            LogKind::Local => b"local",
            LogKind::Send => b"send",
            LogKind::Receive => b"receive",
            LogKind::Restart => b"restart",
        }
    }
}
