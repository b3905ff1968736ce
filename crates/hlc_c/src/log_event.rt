use crate::claim::{HLC_LOCAL, HLC_RECEIVE, HLC_SEND};
use hlc_log_line::{LogEvent, LogKind};

/// What a row of a log tells of, as C says it, beside the kinds of claims: a restart.
pub const HLC_RESTART: u32 = 3;

/// An event of a log as C sees it, but for its stamp: 80 bytes.
#[repr(C)]
#[derive(Clone, Copy)]
pub struct CLogEvent<'a> {
    /// The name of the node at which it happened.
    pub node: &'a [u8],
    /// The name of the message that was sent or received, which may be empty.
    pub message: &'a [u8],
    /// Of a receive, the name of the node that sent the message, which may be empty.
    pub from: &'a [u8],
    /// Any text, which may be empty.
    pub label: &'a [u8],
    /// What the node's clock read; 0 if that isn't told.
    pub reading: u64,
    /// `HLC_LOCAL`, `HLC_SEND`, `HLC_RECEIVE` or `HLC_RESTART`.
    pub kind: u32,
}

impl<'a> CLogEvent<'a> {
    ghost use Rattle.std.specs.Prelude.{◌≡◌};
    ghost use Rattle.hlc_c.specs.LogEvent.{event_from_c};

    // The event, if its kind is one.
    pub(crate) fn event(&self) -> Option<LogEvent<'a>>
        ensures { result ≡ event_from_c self.now }
    {
        let kind = log_kind(self.kind)?;
        Some(LogEvent {
            kind,
            node: self.node,
            reading: self.reading,
            message: self.message,
            from: self.from,
            label: self.label,
        })
    }
}

ghost use Rattle.std.specs.Prelude.{◌≡◌};
ghost use Rattle.hlc_c.specs.LogEvent.{log_kind_of};

// The kind that a number stands for.
fn log_kind(kind: u32) -> Option<LogKind>
    ensures { result ≡ log_kind_of kind }
{
    match kind {
        HLC_LOCAL => Some(LogKind::Local),
        HLC_SEND => Some(LogKind::Send),
        HLC_RECEIVE => Some(LogKind::Receive),
        HLC_RESTART => Some(LogKind::Restart),
        _ => None,
    }
}
