use crate::dotted::{STAMP_ROOM, end_with_stamp_or_none};
use crate::log_kind::LogKind;
use crate::number_text::{NUMBER_ROOM, end_with_number};
use crate::row_text::write_eight;
use hlc_stamp::{MAX_READING, Stamp};

/// The greatest length of the name of a node or of a message in a log, in bytes.
pub const MAX_NAME_LEN: usize = 256;

/// The greatest length of a label, in bytes: 2^32 - 1.
pub const MAX_LABEL_LEN: usize = 4_294_967_295;

/// An event as a log tells of it, but for its stamp, with its texts where they lie.
#[derive(Clone, Copy)]
pub struct LogEvent<'a> {
    /// What it is.
    pub kind: LogKind,
    /// The name of the node at which it happened.
    pub node: &'a [u8],
    /// What the node's clock read; 0 if that isn't told.
    pub reading: u64,
    /// The name of the message that was sent or received, which may be empty.
    pub message: &'a [u8],
    /// Of a receive, the name of the node that sent the message, which may be empty.
    pub from: &'a [u8],
    /// Any text, which may be empty.
    pub label: &'a [u8],
}

impl<'a> LogEvent<'a> {
    ghost use Rattle.std.specs.Prelude.{◌≤◌, ◌↔◌, IsTrue, length};
    ghost use Rattle.hlc_log_line.specs.LogRow.{HasGoodTexts, IsLoggable, IsNamed, IsRowWritten, IsStamped};
    ghost use Rattle.hlc_log_line.specs.StampText.{dotted_or_none, number_or_none};

    /// Writes the row of the event at the front of a room, with its stamp and the one that a received message carried as `L.C`, of which
    /// (0, 0) stands for none. Answers how long the row is, and 0 if no log has such an event.
    pub fn write_dotted(&self, room: &mut [u8], stamp: Stamp, carried: Stamp) -> usize
        ensures { IsRowWritten self.now (dotted_or_none stamp) (dotted_or_none carried) room.old room.new result }
    {
        let mut stamp_text = [0; STAMP_ROOM];
        let mut carried_text = [0; STAMP_ROOM];
        let stamp_start = end_with_stamp_or_none(&mut stamp_text, stamp);
        let carried_start = end_with_stamp_or_none(&mut carried_text, carried);
        self.write(
            room,
            &stamp_text[stamp_start..],
            &carried_text[carried_start..],
        )
    }

    /// The same with packed stamps, of which 0 stands for none.
    pub fn write_packed(&self, room: &mut [u8], stamp: u64, carried: u64) -> usize
        ensures { IsRowWritten self.now (number_or_none stamp) (number_or_none carried) room.old room.new result }
    {
        let mut stamp_text = [0; NUMBER_ROOM];
        let mut carried_text = [0; NUMBER_ROOM];
        let stamp_start = end_with_number(&mut stamp_text, stamp);
        let carried_start = end_with_number(&mut carried_text, carried);
        self.write(
            room,
            &stamp_text[stamp_start..],
            &carried_text[carried_start..],
        )
    }

    // Writes the row with these texts of stamps.
    fn write(&self, room: &mut [u8], stamp: &[u8], carried: &[u8]) -> usize
        requires stamp { length stamp.now ≤ STAMP_ROOM }
        requires carried { length carried.now ≤ STAMP_ROOM }
        ensures { IsRowWritten self.now stamp.now carried.now room.old room.new result }
    {
        if !self.is_loggable(stamp, carried) {
            return 0;
        }
        let mut digits = [0; NUMBER_ROOM];
        let start = end_with_number(&mut digits, self.reading);
        write_eight(
            room,
            self.kind.word(),
            self.node,
            &digits[start..],
            stamp,
            self.message,
            self.from,
            carried,
            self.label,
        )
    }

    // Whether a log may have the event with these texts of stamps.
    fn is_loggable(&self, stamp: &[u8], carried: &[u8]) -> bool
        ensures { IsTrue result ↔ IsLoggable self.now stamp.now carried.now }
    {
        self.has_good_texts()
            && self.reading <= MAX_READING
            && self.is_stamped(stamp)
            && self.is_named(carried)
    }

    // Whether its texts aren't too long, and its node has a name.
    fn has_good_texts(&self) -> bool
        ensures { IsTrue result ↔ HasGoodTexts self.now }
    {
        !self.node.is_empty()
            && self.node.len() <= MAX_NAME_LEN
            && self.message.len() <= MAX_NAME_LEN
            && self.from.len() <= MAX_NAME_LEN
            && self.label.len() <= MAX_LABEL_LEN
    }

    // Whether this may be its stamp.
    fn is_stamped(&self, stamp: &[u8]) -> bool
        ensures { IsTrue result ↔ IsStamped self.now.kind stamp.now }
    {
        self.kind == LogKind::Receive || !stamp.is_empty()
    }

    // Whether what it received is named, if it is a receive.
    fn is_named(&self, carried: &[u8]) -> bool
        ensures { IsTrue result ↔ IsNamed self.now.kind self.now.message.now self.now.from.now carried.now }
    {
        self.kind != LogKind::Receive
            || !self.message.is_empty()
            || (!self.from.is_empty() && !carried.is_empty())
    }
}
