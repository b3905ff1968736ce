use std::fmt;

/// The note on a command that was carried out, and had no event to tell of.
#[derive(Clone, Copy)]
pub enum NoEvents {
    /// A script that was drawn or traced has records, and none of them became an event, so there was nothing to draw or to trace. The likely
    /// reason is an input that is no script, but a log.
    Script {
        /// How many records the script has.
        records: u64,
    },
    /// A log that was audited has no event. The likely reason is an input that isn't there, or has another form than the options say.
    Log,
}

impl fmt::Display for NoEvents {
    ghost use Rattle.std.specs.Prelude.{Some};
    ghost use Rattle.hlc_command_line.specs.NoEvents.{note_text};

    ghost output = { λ note. Some (note_text note) };

    fn fmt<W: fmt::Write>(&self, f: &mut fmt::Formatter<W>) -> fmt::Result {
        match *self {
            NoEvents::Script { records } => write!(f, "none of {records} records is an event"),
            NoEvents::Log => f.write_str("no events"),
        }
    }
}
