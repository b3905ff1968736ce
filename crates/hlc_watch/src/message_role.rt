ghost use Rattle.std.specs.Prelude.{◌≡◌};
ghost use Rattle.hlc_watch.specs.Records.{role_of};

use hlc_log::LogKind;

/// What an event does with a message, which has a name.
#[derive(Clone, Copy, Debug, PartialEq, Eq)]
pub enum MessageRole {
    /// It has none.
    Local,
    /// It sends it.
    Send,
    /// It receives it.
    Receive,
}

impl MessageRole {
    // That of an event of a log, which has no message that the log sends unless it sends or receives one.
    pub(crate) fn of(kind: LogKind) -> MessageRole
        ensures { result ≡ role_of kind }
    {
        match kind {
            LogKind::Send(_) => MessageRole::Send,
            LogKind::Receive(_) => MessageRole::Receive,
            LogKind::Local | LogKind::Restart | LogKind::Outside => MessageRole::Local,
        }
    }
}
