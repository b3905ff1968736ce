// The options of the command line, as numbers.

ghost use Rattle.std.specs.Prelude.{◌≡◌, ◌↔◌, IfSome, IsNone, IsSome, None};
ghost use Rattle.hlc_core.specs.State.{new_refusal};
ghost use Rattle.hlc_seeded.specs.Storm.{are_settings};
ghost use Rattle.hlc_page.specs.Answer.{AreAuditOptionsOf, AreDrawingOf, event_of, events_between, limit_of, line_of, output_of, part_around, part_between, settings_of};
ghost use Rattle.hlc_page.specs.Given.{AreRecordsOf, IsFormOf, clock_unit_of, fault_rule_of, is_set, l_unit_of, receives_of, resent_of, syntax_of, units_of};

use crate::page_log::PageLog;
use hlc_causality::Receives;
use hlc_command_line::{AuditOptions, DrawLogOptions, DrawnPart, DrawnRows, LogLine, OutputForm};
use hlc_log::Resent;
use hlc_log_text::{FaultRule, LogRules, PackedBits, RecordSyntax, StampForm, TimeUnit, Units};
use hlc_stamp::{
    EventId, MAX_CAPACITY, MAX_NODES, MAX_STEPS, MIN_CAPACITY, MIN_NODES, MIN_STEPS, Settings,
};

// A drift limit: the greatest number is none.
fn limit(number: u64) -> Option<u64>
    ensures { result ≡ limit_of number }
{
    if number == u64::MAX {
        None
    } else {
        Some(number)
    }
}

// The settings of which these are the numbers, if a cluster may have them.
pub(crate) fn settings(nodes: u16, capacity: u32, drift_limit: u64) -> Option<Settings>
    ensures refused { IsNone result ↔ IsSome (new_refusal nodes capacity) }
    ensures numbers { IfSome result (λ settings. settings ≡ settings_of nodes capacity drift_limit) }
{
    if nodes < MIN_NODES
        || nodes > MAX_NODES
        || capacity < MIN_CAPACITY
        || capacity > MAX_CAPACITY
    {
        return None;
    }
    Some(Settings {
        nodes,
        capacity,
        limit: limit(drift_limit),
    })
}

// Whether there are seeded scripts of so many nodes and steps.
pub(crate) fn has_storm(nodes: u16, steps: u32) -> bool
    ensures { result ≡ are_settings nodes steps }
{
    nodes >= MIN_NODES && nodes <= MAX_NODES && steps >= MIN_STEPS && steps <= MAX_STEPS
}

// The event that is named: the greatest number names none.
fn event(number: u32) -> Option<EventId>
    ensures { result ≡ event_of number }
{
    if number == u32::MAX {
        None
    } else {
        Some(EventId(number))
    }
}

// The events of a history from one to another, by these numbers, with the chain of a third one marked.
pub(crate) fn events_between(explained: u32, from: u32, to: u32) -> DrawnPart<EventId>
    ensures { result ≡ events_between explained from to }
{
    DrawnPart::Rows {
        rows: DrawnRows::Between {
            from: event(from),
            to: event(to),
        },
        explained: event(explained),
    }
}

// The line that is named, as the page's editor counts it, over all files: the greatest number names none.
fn line(number: u32) -> Option<LogLine>
    ensures { result ≡ line_of number }
{
    if number == u32::MAX {
        None
    } else {
        Some(LogLine::Counted(number))
    }
}

// Whether a number says yes.
fn is_set(number: u32) -> bool
    ensures { result ≡ is_set number }
{
    number != 0
}

// How stamps are written: 0 in two fields, 1 to 32 packed with so many bits for `c`, and any other number dotted.
fn form(number: u32) -> StampForm
    ensures { IsFormOf number result }
{
    if number == 0 {
        return StampForm::Pair;
    }
    match PackedBits::new(number) {
        Some(bits) => StampForm::Packed(bits),
        None => StampForm::Dotted,
    }
}

// What the clocks do at receives: 0 they tick, 1 they merge, and any other number they merge with what they read.
fn receives_of(number: u32) -> Receives
    ensures { result ≡ receives_of number }
{
    if number == 0 {
        Receives::Tick
    } else if number == 1 {
        Receives::Merge
    } else {
        Receives::MergeClock
    }
}

// Which send of a message that is sent again receives are of: 0 it isn't said, 1 the first, and any other number the last.
fn resent_of(number: u32) -> Option<Resent>
    ensures { result ≡ resent_of number }
{
    if number == 0 {
        None
    } else if number == 1 {
        Some(Resent::First)
    } else {
        Some(Resent::Last)
    }
}

// What becomes of bad records: 0 the first ends the reading, 1 they are left out, and any other number each is told.
fn fault_rule(number: u32) -> FaultRule
    ensures { result ≡ fault_rule_of number }
{
    if number == 0 {
        FaultRule::First
    } else if number == 1 {
        FaultRule::LeaveOut
    } else {
        FaultRule::TellEach
    }
}

// A unit of clocks: 1 seconds, 2 milliseconds, 3 microseconds, and any other number nanoseconds.
fn clock_unit(number: u32) -> TimeUnit
    ensures { result ≡ clock_unit_of number }
{
    if number == 1 {
        TimeUnit::Seconds
    } else if number == 2 {
        TimeUnit::Milliseconds
    } else if number == 3 {
        TimeUnit::Microseconds
    } else {
        TimeUnit::Nanoseconds
    }
}

// A unit of `l`: below 5 one of clocks, and that of NTP from there on.
fn l_unit(number: u32) -> TimeUnit
    ensures { result ≡ l_unit_of number }
{
    if number < 5 {
        clock_unit(number)
    } else {
        TimeUnit::Ntp64
    }
}

// The units of readings and of `l`: with 0 for one of them there are none.
fn units(reading: u32, l: u32) -> Option<Units>
    ensures { result ≡ units_of reading l }
{
    if reading == 0 || l == 0 {
        return None;
    }
    Some(Units {
        reading: clock_unit(reading),
        l: l_unit(l),
    })
}

// In which syntax the records are: 0 in CSV, and any other number as lines of JSON.
fn syntax(number: u32) -> RecordSyntax
    ensures { result ≡ syntax_of number }
{
    if number == 0 {
        RecordSyntax::Csv
    } else {
        RecordSyntax::JsonLines
    }
}

// How the records of a log are read by its numbers.
pub(crate) fn records(log: &PageLog<'_>) -> LogRules
    ensures { AreRecordsOf log.now result }
{
    LogRules {
        syntax: syntax(log.jsonl),
        form: form(log.stamp_form),
        units: units(log.reading_unit, log.l_unit),
        tolerance: log.tolerance,
        receives: receives_of(log.receives),
        unsent_local: is_set(log.unsent_local),
        resent: resent_of(log.resent),
        faults: fault_rule(log.faults),
    }
}

// The form of an audit's output: 0 rows of CSV, 1 one object of JSON, and any other number text.
fn output(number: u32) -> OutputForm
    ensures { result ≡ output_of number }
{
    if number == 0 {
        OutputForm::Csv
    } else if number == 1 {
        OutputForm::Json
    } else {
        OutputForm::Text
    }
}

// How a log is audited by these numbers: not strictly, since the status tells broken stamps in any case.
pub(crate) fn auditing(
    log: &PageLog<'_>,
    drift_limit: u64,
    report: bool,
    grouped: bool,
    output_form: u32,
) -> AuditOptions
    ensures { AreAuditOptionsOf log.now drift_limit report grouped output_form result }
{
    AuditOptions {
        records: records(log),
        strict: false,
        limit: limit(drift_limit),
        report,
        groups: grouped,
        output: output(output_form),
    }
}

// How a log is drawn by these numbers.
pub(crate) fn drawing(log: &PageLog<'_>, explained: u32, from: u32, to: u32) -> DrawLogOptions
    ensures { AreDrawingOf log.now (part_between explained from to) result }
{
    DrawLogOptions {
        records: records(log),
        part: DrawnPart::Rows {
            rows: DrawnRows::Between {
                from: line(from),
                to: line(to),
            },
            explained: line(explained),
        },
    }
}

// How so many rows of a log about an event are drawn by these numbers, or with 0 rows its chain alone.
pub(crate) fn drawing_around(
    log: &PageLog<'_>,
    explained: u32,
    about: u32,
    rows: u32,
) -> DrawLogOptions
    ensures { AreDrawingOf log.now (part_around explained about rows) result }
{
    let records = records(log);
    let part = if rows == 0 {
        DrawnPart::Chain {
            event: LogLine::Counted(about),
        }
    } else {
        DrawnPart::Rows {
            rows: DrawnRows::Around {
                event: LogLine::Counted(about),
                rows,
            },
            explained: line(explained),
        }
    };
    DrawLogOptions { records, part }
}
