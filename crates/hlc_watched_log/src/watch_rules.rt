ghost use Rattle.std.specs.Prelude.{◌<◌};

use hlc_log_text::LogRules;

/// How a log is watched.
#[derive(Clone, Copy)]
pub struct WatchRules {
    /// How its records are read. Which send of a message a receive is of isn't looked at.
    pub records: LogRules,
    /// How far above its reading the `l` that an event claims may be, in the unit of `l`, if that is limited.
    pub limit: Option<u64>,
    /// How many messages are remembered, the latest, and how many receives may wait.
    pub keep: u32,
    /// After how many events each the log is summed up; at its end alone if it isn't said, or is 0.
    pub every: Option<u32>,
    pub ghost some_kept: { 0 < keep },
}
