ghost use Rattle.std.specs.Prelude.{◌<◌};

use crate::drawn_part::DrawnPart;
use hlc_json_lines::JsonRules;
use hlc_log_text::{Location, LogQuestion, LogRules};
use hlc_stamp::{EventId, Settings};

/// How what an audit finds is written.
#[derive(Clone, Copy, Debug, PartialEq, Eq)]
pub enum OutputForm {
    /// As rows of CSV.
    Csv,
    /// As one object of JSON, with the same rows.
    Json,
    /// As text for people, by the same rows.
    Text,
}

/// How a log is read and audited.
#[derive(Clone, Copy)]
pub struct AuditOptions {
    /// How its records are read.
    pub records: LogRules,
    /// Whether the status is to tell if a stamp is behind or not above another one, or a message carried another stamp than its send.
    pub strict: bool,
    /// How far a stamp may be ahead of what the clock reads, if there is a limit.
    pub limit: Option<u64>,
    /// Whether the report is also written if something is asked.
    pub report: bool,
    /// Whether the causes are also told in groups.
    pub groups: bool,
    /// How what is found is written.
    pub output: OutputForm,
}

/// What is asked beside a log that is audited.
#[derive(Drop)]
pub struct AskedBeside {
    /// The questions that the command line asks.
    pub questions: Vec<LogQuestion>,
    /// Whether further ones follow the log in the input.
    pub questions_follow: bool,
}

/// How many messages a watch remembers if no other number is given.
pub const USUAL_KEPT: u32 = 1_000_000;

/// How a log is read and watched.
#[derive(Clone, Copy)]
pub struct WatchOptions {
    /// How its records are read.
    pub records: LogRules,
    /// Whether the status is to tell if a stamp is behind or not above another one, or a message carried another stamp than its send.
    pub strict: bool,
    /// How far a claimed `l` may be above its reading, if there is a limit.
    pub limit: Option<u64>,
    /// How many messages are remembered.
    pub keep: u32,
    /// After how many events each the log is summed up, if not at its end alone.
    pub every: Option<u32>,
    pub ghost some_kept: { 0 < keep },
}

/// How a line of a log is named.
#[derive(Drop)]
pub enum LogLine {
    /// By where it stands in the files that the log was put together of.
    Located(Location),
    /// By its number, counted over all files, as an editor does.
    Counted(u32),
}

/// How a log is read, and what of it is drawn.
#[derive(Drop)]
pub struct DrawLogOptions {
    /// How its records are read.
    pub records: LogRules,
    /// What of the log is drawn, whose events are named by their lines.
    pub part: DrawnPart<LogLine>,
}

/// What a command line asks of the program.
#[derive(Drop)]
pub enum Order {
    /// Answer a script of records, with these settings.
    Run(Settings),
    /// Draw the history that a script leaves.
    Draw {
        /// The settings of the cluster that answers the script.
        settings: Settings,
        /// What of the history is drawn.
        part: DrawnPart<EventId>,
    },
    /// Write the history that a script leaves as a log.
    Trace {
        /// The settings of the cluster that answers the script.
        settings: Settings,
        /// Whether each row stands below a line with the event's vector.
        vector: bool,
    },
    /// Judge a trace of claimed stamps.
    Judge,
    /// Audit a log of another system.
    Audit {
        /// How it is read and audited.
        options: AuditOptions,
        /// What is asked beside the log.
        asked: AskedBeside,
        /// How its lines are read, if they are JSON.
        json: Option<JsonRules>,
    },
    /// Watch a log of another system as it comes.
    Watch {
        /// How it is read and watched.
        options: WatchOptions,
        /// How its lines are read, if they are JSON.
        json: Option<JsonRules>,
    },
    /// Draw a log of another system.
    DrawLog {
        /// How it is read, and what of it is drawn.
        options: DrawLogOptions,
        /// How its lines are read, if they are JSON.
        json: Option<JsonRules>,
    },
    /// Write a log of another system with the vectors of its events.
    Vectors {
        /// How its records are read.
        records: LogRules,
        /// How its lines are read, if they are JSON.
        json: Option<JsonRules>,
    },
    /// Print the script that is drawn from a seed.
    Storm {
        /// How many nodes there are.
        nodes: u16,
        /// How many steps each node takes.
        steps: u32,
        /// What the script is drawn from.
        seed: u64,
    },
    /// Play such a script with a thread for each node, and explain all stamps.
    Threads {
        /// How many nodes there are.
        nodes: u16,
        /// How many steps each node takes.
        steps: u32,
        /// What the script is drawn from.
        seed: u64,
        /// How far a stamp may be ahead of what the clock reads, if there is a limit.
        limit: Option<u64>,
    },
}
