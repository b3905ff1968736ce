use clap::builder::ValueParser;
use hlc_stamp::{
    MAX_CAPACITY, MAX_DRIFT_LIMIT, MAX_NODES, MAX_SEED, MAX_STEPS, MIN_CAPACITY, MIN_NODES,
    MIN_STEPS,
};

// The option `--NAME` of a subcommand.
pub(crate) struct OptionRule {
    pub(crate) name: &'static str,
    pub(crate) text: &'static str,
    pub(crate) takes: Takes,
}

// What an option takes.
#[derive(Clone, Copy)]
pub(crate) enum Takes {
    // Nothing: it is a flag.
    Nothing,
    // One value, with what the help calls it.
    One {
        value: &'static str,
        parser: ValueParser<'static>,
        required: bool,
    },
    // Any number of values, one each time that it is given.
    Many {
        value: &'static str,
        parser: ValueParser<'static>,
    },
}

pub(crate) const NODES: OptionRule = OptionRule {
    name: "nodes",
    text: "How many nodes the cluster has",
    takes: Takes::One {
        value: "N",
        parser: ValueParser::Signed(MIN_NODES as i64, MAX_NODES as i64),
        required: true,
    },
};

pub(crate) const CAPACITY: OptionRule = OptionRule {
    name: "capacity",
    text: "The most events that its history holds",
    takes: Takes::One {
        value: "C",
        parser: ValueParser::Signed(MIN_CAPACITY as i64, MAX_CAPACITY as i64),
        required: true,
    },
};

pub(crate) const STEPS: OptionRule = OptionRule {
    name: "steps",
    text: "How many steps each node takes",
    takes: Takes::One {
        value: "K",
        parser: ValueParser::Signed(MIN_STEPS as i64, MAX_STEPS as i64),
        required: true,
    },
};

pub(crate) const SEED: OptionRule = OptionRule {
    name: "seed",
    text: "What the script is drawn from: an equal seed gives an equal script",
    takes: Takes::One {
        value: "S",
        parser: ValueParser::Unsigned(0, MAX_SEED),
        required: true,
    },
};

// What `--limit` and `--tolerance` take.
const DRIFT: Takes = Takes::One {
    value: "D",
    parser: ValueParser::Unsigned(0, MAX_DRIFT_LIMIT),
    required: false,
};

pub(crate) const LIMIT: OptionRule = OptionRule {
    name: "limit",
    text: "How far a stamp may be ahead of what the clock reads: what would be further is refused",
    takes: DRIFT,
};

// An option of an event's number takes any that a history may have.
const EVENT_NUMBER: ValueParser<'static> = ValueParser::Unsigned(0, MAX_CAPACITY as u64);

pub(crate) const EXPLAIN: OptionRule = OptionRule {
    name: "explain",
    text: "The event whose chain is marked",
    takes: Takes::One {
        value: "E",
        parser: EVENT_NUMBER,
        required: false,
    },
};

pub(crate) const FROM: OptionRule = OptionRule {
    name: "from",
    text: "The first event that is drawn",
    takes: Takes::One {
        value: "F",
        parser: EVENT_NUMBER,
        required: false,
    },
};

pub(crate) const TO: OptionRule = OptionRule {
    name: "to",
    text: "The last event that is drawn",
    takes: Takes::One {
        value: "T",
        parser: EVENT_NUMBER,
        required: false,
    },
};

pub(crate) const AROUND: OptionRule = OptionRule {
    name: "around",
    text: "The event about which rows are drawn",
    takes: Takes::One {
        value: "A",
        parser: EVENT_NUMBER,
        required: false,
    },
};

// What an option of an event's line takes. `LINE` in its help stands for `NAME:LINE` too.
const EVENT_LINE: Takes = Takes::One {
    value: "LINE",
    parser: ValueParser::String,
    required: false,
};

pub(crate) const EXPLAIN_LINE: OptionRule = OptionRule {
    name: "explain",
    text: "The line of the event whose chain is marked",
    takes: EVENT_LINE,
};

pub(crate) const FROM_LINE: OptionRule = OptionRule {
    name: "from",
    text: "The line of the first event that is drawn",
    takes: EVENT_LINE,
};

pub(crate) const TO_LINE: OptionRule = OptionRule {
    name: "to",
    text: "The line of the last event that is drawn",
    takes: EVENT_LINE,
};

pub(crate) const AROUND_LINE: OptionRule = OptionRule {
    name: "around",
    text: "The line of an event about which rows are drawn",
    takes: EVENT_LINE,
};

pub(crate) const ROWS: OptionRule = OptionRule {
    name: "rows",
    text: "With --around, how many rows are drawn at most: 40 if it is left out",
    takes: Takes::One {
        value: "N",
        parser: ValueParser::Unsigned(1, u32::MAX as u64),
        required: false,
    },
};

pub(crate) const ONLY_CHAIN: OptionRule = OptionRule {
    name: "only-chain",
    text: "With --explain, draws the chain alone, and how many events lie between two of it",
    takes: Takes::Nothing,
};

pub(crate) const VECTOR: OptionRule = OptionRule {
    name: "vector",
    text: "Above each row stands a line with the event's node and its vector",
    takes: Takes::Nothing,
};

pub(crate) const PACKED: OptionRule = OptionRule {
    name: "packed",
    text: "A stamp is one number, with C in its B low bits: 1 to 32",
    takes: Takes::One {
        value: "B",
        parser: ValueParser::Unsigned(1, 32),
        required: false,
    },
};

pub(crate) const DOTTED: OptionRule = OptionRule {
    name: "dotted",
    text: "A stamp is one field, L.C",
    takes: Takes::Nothing,
};

pub(crate) const UNSENT: OptionRule = OptionRule {
    name: "unsent",
    text: "With the word `local`, a receive of a message that nobody sends is taken as a local event, unless it tells what that carried",
    takes: Takes::One {
        value: "local",
        parser: ValueParser::String,
        required: false,
    },
};

pub(crate) const RESENT: OptionRule = OptionRule {
    name: "resent",
    text: "A message may be sent again: a receive is of the send whose stamp it tells as carried, or else of the first, or of the last before it",
    takes: Takes::One {
        value: "WHICH",
        parser: ValueParser::String,
        required: false,
    },
};

pub(crate) const STRICT: OptionRule = OptionRule {
    name: "strict",
    text: "The status is 3 if a stamp is behind or not above another one, or a message carried another stamp than its send",
    takes: Takes::Nothing,
};

pub(crate) const TOLERANCE: OptionRule = OptionRule {
    name: "tolerance",
    text: "Within how much of its clock a reading is known: 0 if it is left out",
    takes: DRIFT,
};

pub(crate) const RECEIVES: OptionRule = OptionRule {
    name: "receives",
    text: "What a clock does at a receive: tick, merge or merge-clock; tick if it is left out",
    takes: Takes::One {
        value: "RULE",
        parser: ValueParser::String,
        required: false,
    },
};

pub(crate) const AUDIT_LIMIT: OptionRule = OptionRule {
    name: "limit",
    text: "How far a stamp may be ahead of what the clock reads; if one is further, the status is 3",
    takes: DRIFT,
};

pub(crate) const ASK: OptionRule = OptionRule {
    name: "ask",
    text: "Answers a question about the log, in the words of a record; it may be given more than once. With `-` further ones follow the log",
    takes: Takes::Many {
        value: "QUESTION",
        parser: ValueParser::String,
    },
};

pub(crate) const REPORT: OptionRule = OptionRule {
    name: "report",
    text: "Also writes the report if something is asked",
    takes: Takes::Nothing,
};

pub(crate) const GROUPS: OptionRule = OptionRule {
    name: "groups",
    text: "Also writes the causes in groups, at the end",
    takes: Takes::Nothing,
};

pub(crate) const OUTPUT: OptionRule = OptionRule {
    name: "output",
    text: "How what is found is written: csv, json or text; csv if it is left out",
    takes: Takes::One {
        value: "FORM",
        parser: ValueParser::String,
        required: false,
    },
};

pub(crate) const KEEP: OptionRule = OptionRule {
    name: "keep",
    text: "How many messages are remembered, the latest: 1000000 if it is left out",
    takes: Takes::One {
        value: "N",
        parser: ValueParser::Unsigned(1, u32::MAX as u64),
        required: false,
    },
};

pub(crate) const EVERY: OptionRule = OptionRule {
    name: "every",
    text: "After how many events each the log is summed up, and not just at its end",
    takes: Takes::One {
        value: "N",
        parser: ValueParser::Unsigned(1, u32::MAX as u64),
        required: false,
    },
};

pub(crate) const JSONL: OptionRule = OptionRule {
    name: "jsonl",
    text: "The log is lines of JSON: each object tells of an event",
    takes: Takes::Nothing,
};

pub(crate) const LENIENT: OptionRule = OptionRule {
    name: "lenient",
    text: "Records that are bad, and events of a cycle, are left out",
    takes: Takes::Nothing,
};

pub(crate) const ALL_FAULTS: OptionRule = OptionRule {
    name: "all-faults",
    text: "Each record that is bad is told, and not just the first",
    takes: Takes::Nothing,
};

pub(crate) const FIELD: OptionRule = OptionRule {
    name: "field",
    text: "With --jsonl, the path of a column's value in an object, as node=.fields.host; it may be given more than once",
    takes: Takes::Many {
        value: "NAME=PATH",
        parser: ValueParser::String,
    },
};

pub(crate) const KIND: OptionRule = OptionRule {
    name: "kind",
    text: "With --jsonl, values of `kind` that mean a word, as send=posted,sent; it may be given more than once",
    takes: Takes::Many {
        value: "WORD=VALUE,VALUE",
        parser: ValueParser::String,
    },
};

pub(crate) const READING_UNIT: OptionRule = OptionRule {
    name: "reading-unit",
    text: "With --l-unit, the unit of readings: s, ms, us or ns",
    takes: Takes::One {
        value: "UNIT",
        parser: ValueParser::String,
        required: false,
    },
};

pub(crate) const L_UNIT: OptionRule = OptionRule {
    name: "l-unit",
    text: "With --reading-unit, the unit of L: s, ms, us, ns or ntp64",
    takes: Takes::One {
        value: "UNIT",
        parser: ValueParser::String,
        required: false,
    },
};
