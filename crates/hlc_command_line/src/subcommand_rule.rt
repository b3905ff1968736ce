ghost use Rattle.std.specs.Prelude.{◌≡◌};
ghost use Rattle.hlc_command_line.specs.Line.{subcommand_named};
ghost use Rattle.hlc_command_line.specs.Rules.{app_of_rule};
ghost use Rattle.hlc_command_line.specs.Subcommand.{app_of_subcommand};

use crate::help;
use crate::option_rule::{
    ALL_FAULTS, AROUND, AROUND_LINE, ASK, AUDIT_LIMIT, CAPACITY, DOTTED, EVERY, EXPLAIN,
    EXPLAIN_LINE, FIELD, FROM, FROM_LINE, GROUPS, JSONL, KEEP, KIND, L_UNIT, LENIENT, LIMIT, NODES,
    ONLY_CHAIN, OUTPUT, OptionRule, PACKED, READING_UNIT, RECEIVES, REPORT, RESENT, ROWS, SEED,
    STEPS, STRICT, TO, TO_LINE, TOLERANCE, UNSENT, VECTOR,
};

// A subcommand, its help and its options.
#[derive(Clone, Copy)]
pub(crate) struct SubcommandRule {
    pub(crate) name: &'static str,
    pub(crate) about: &'static str,
    pub(crate) after_help: &'static str,
    pub(crate) options: &'static [OptionRule],
}

// The name of a subcommand.
#[derive(Clone, Copy)]
pub(crate) enum SubcommandName {
    Run,
    Draw,
    Trace,
    Judge,
    Audit,
    Watch,
    DrawLog,
    Vectors,
    Storm,
    Threads,
}

// The subcommands of `hlc`, in the order in which the help lists them.
pub(crate) static SUBCOMMANDS: [SubcommandName; 10] = [
    SubcommandName::Run,
    SubcommandName::Draw,
    SubcommandName::Trace,
    SubcommandName::Judge,
    SubcommandName::Audit,
    SubcommandName::Watch,
    SubcommandName::DrawLog,
    SubcommandName::Vectors,
    SubcommandName::Storm,
    SubcommandName::Threads,
];

static RUN_OPTIONS: [OptionRule; 3] = [NODES, CAPACITY, LIMIT];

static DRAW_OPTIONS: [OptionRule; 9] = [
    NODES, CAPACITY, LIMIT, EXPLAIN, FROM, TO, AROUND, ROWS, ONLY_CHAIN,
];

static TRACE_OPTIONS: [OptionRule; 4] = [NODES, CAPACITY, LIMIT, VECTOR];

static JUDGE_OPTIONS: [OptionRule; 0] = [];

static AUDIT_OPTIONS: [OptionRule; 19] = [
    PACKED,
    DOTTED,
    TOLERANCE,
    RECEIVES,
    UNSENT,
    RESENT,
    LENIENT,
    ALL_FAULTS,
    JSONL,
    FIELD,
    KIND,
    READING_UNIT,
    L_UNIT,
    STRICT,
    AUDIT_LIMIT,
    ASK,
    REPORT,
    GROUPS,
    OUTPUT,
];

static WATCH_OPTIONS: [OptionRule; 14] = [
    PACKED,
    DOTTED,
    TOLERANCE,
    RECEIVES,
    LENIENT,
    JSONL,
    FIELD,
    KIND,
    READING_UNIT,
    L_UNIT,
    STRICT,
    AUDIT_LIMIT,
    KEEP,
    EVERY,
];

static DRAW_LOG_OPTIONS: [OptionRule; 19] = [
    PACKED,
    DOTTED,
    TOLERANCE,
    RECEIVES,
    UNSENT,
    RESENT,
    LENIENT,
    ALL_FAULTS,
    JSONL,
    FIELD,
    KIND,
    READING_UNIT,
    L_UNIT,
    EXPLAIN_LINE,
    FROM_LINE,
    TO_LINE,
    AROUND_LINE,
    ROWS,
    ONLY_CHAIN,
];

static VECTORS_OPTIONS: [OptionRule; 13] = [
    PACKED,
    DOTTED,
    TOLERANCE,
    RECEIVES,
    UNSENT,
    RESENT,
    LENIENT,
    ALL_FAULTS,
    JSONL,
    FIELD,
    KIND,
    READING_UNIT,
    L_UNIT,
];

static STORM_OPTIONS: [OptionRule; 3] = [NODES, STEPS, SEED];

static THREADS_OPTIONS: [OptionRule; 4] = [NODES, STEPS, SEED, LIMIT];

// The rule of the subcommand of this name. No table holds all of them, since what a table takes to prove grows with the square of its texts.
pub(crate) fn subcommand_rule(name: SubcommandName) -> SubcommandRule
    ensures { app_of_rule result ≡ app_of_subcommand (subcommand_named name) }
{
    match name {
        SubcommandName::Run => SubcommandRule {
            name: "run",
            about: help::RUN,
            after_help: help::RECORDS,
            options: &RUN_OPTIONS,
        },
        SubcommandName::Draw => SubcommandRule {
            name: "draw",
            about: help::DRAW,
            after_help: help::PICTURE,
            options: &DRAW_OPTIONS,
        },
        SubcommandName::Trace => SubcommandRule {
            name: "trace",
            about: help::TRACE,
            after_help: help::HISTORY,
            options: &TRACE_OPTIONS,
        },
        SubcommandName::Judge => SubcommandRule {
            name: "judge",
            about: help::JUDGE,
            after_help: help::CLAIMS,
            options: &JUDGE_OPTIONS,
        },
        SubcommandName::Audit => SubcommandRule {
            name: "audit",
            about: help::AUDIT,
            after_help: help::LOGS,
            options: &AUDIT_OPTIONS,
        },
        SubcommandName::Watch => SubcommandRule {
            name: "watch",
            about: help::WATCH,
            after_help: help::WATCHED_LOG,
            options: &WATCH_OPTIONS,
        },
        SubcommandName::DrawLog => SubcommandRule {
            name: "draw-log",
            about: help::DRAW_LOG,
            after_help: help::LOG_PICTURE,
            options: &DRAW_LOG_OPTIONS,
        },
        SubcommandName::Vectors => SubcommandRule {
            name: "vectors",
            about: help::VECTORS,
            after_help: help::LOG_VECTORS,
            options: &VECTORS_OPTIONS,
        },
        SubcommandName::Storm => SubcommandRule {
            name: "storm",
            about: help::STORM,
            after_help: help::STEPS,
            options: &STORM_OPTIONS,
        },
        SubcommandName::Threads => SubcommandRule {
            name: "threads",
            about: help::THREADS,
            after_help: help::COUNTS,
            options: &THREADS_OPTIONS,
        },
    }
}
