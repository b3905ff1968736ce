// How a log is opened.

ghost use Rattle.std.specs.Prelude.{◌≡◌, ℕ, ◌*◌, ◌<◌, ◌≤◌, All, IfErr, IfOk, List, MatchBool, None, OnOk, Some, if◌then◌else◌, length, map, option_map};
ghost use Rattle.std.specs.List.{filter_map};
ghost use Rattle.hlc_stamp.specs.Ids.{places_of};
ghost use Rattle.hlc_log.specs.CausalOrder.{IsCausalOrder, Waits};
ghost use Rattle.hlc_log.specs.Events.{IsInRange, IsNumbered};
ghost use Rattle.hlc_log.specs.Faults.{IsFaultOf};
ghost use Rattle.hlc_log.specs.Messages.{AreMessagesSound};
ghost use Rattle.hlc_log.specs.Unsent.{unsent_count, with_unsent};
ghost use Rattle.hlc_ordered_log.specs.InOrder.{AreOfNodes};
ghost use Rattle.hlc_open_log.specs.Opened.{IsOpened, IsOpenedOf, IsOrderedOf, IsPartOpened, cycle_line, opened_events, resent_apart, resent_of, unsent_of, with_left_out};
ghost use Rattle.hlc_open_log.specs.Unopened.{ExplainsOpenFault, IsRefused, TellsDisorder, bad_event, disorder_of, message_name, order_fault_place, told_faults};

use crate::bad_event::{BadEvent, Disorder};
use crate::bad_input::BadInput;
use crate::fault::OpenFault;
use crate::opened_log::OpenLog;
use hlc_csv::RecordsFault;
use hlc_log::{
    Log, LogKind, MAX_LOG_NODES, OrderFault, Parted, causal_order, faults_of_messages, part,
};
use hlc_log_text::{
    BadLine, BadLog, FaultRule, Files, LogDetails, LogRules, LogText, NameKey, Names, read_log,
};
use hlc_ordered_log::OrderedLog;
use hlc_pages::Bytes;
use hlc_stamp::{EventId, MAX_CAPACITY};
use std::alloc::{AllocError, Global};
use std::io::Read;

// Tells the sends of messages that are sent again apart, if the rules say which of them receives are of, and says how many sent again.
// Messages then have numbers below the first answer.
fn take_resent(
    alloc: Global,
    log: &mut Log,
    messages: u32,
    rules: LogRules,
) -> Result<(u32, Option<u32>), AllocError>
    requires few { messages ≤ 2 * MAX_CAPACITY }
    requires numbered { All (IsNumbered messages) log.old.events }
    ensures events { OnOk result (log.new.events ≡ resent_apart rules.resent messages log.old.events) }
    ensures resent { IfOk result (λ told. told.1 ≡ resent_of rules.resent log.old.events) }
    ensures numbered { IfOk result (λ told. All (IsNumbered told.0) log.new.events) }
    ensures in_range { All IsInRange log.old.events → All IsInRange log.new.events }
{
    let Some(resent) = rules.resent else {
        return Ok((messages, None));
    };
    let count = hlc_log::take_resent(alloc, log, messages, resent)?;
    if count == 0 {
        return Ok((messages, Some(0)));
    }
    Ok((messages + log.len(), Some(count)))
}

// Takes receives of messages that nobody sends as coming in from outside, if the log tells what the message carried; others as local events,
// if the rules say so, and says how many these were.
fn take_unsent(
    alloc: Global,
    log: &mut Log,
    messages: u32,
    rules: LogRules,
) -> Result<Option<u32>, AllocError>
    requires { All (IsNumbered messages) log.old.events }
    ensures events { OnOk result (log.new.events ≡ with_unsent rules.unsent_local log.old.events) }
    ensures unsent { IfOk result (λ unsent. unsent ≡ (if rules.unsent_local then Some (unsent_count log.old.events) else None)) }
    ensures numbered { All (IsNumbered messages) log.new.events }
    ensures in_range { All IsInRange log.old.events → All IsInRange log.new.events }
{
    let counts = log.take_unsent(alloc, messages, rules.unsent_local)?;
    if !rules.unsent_local {
        return Ok(None);
    }
    Ok(Some(counts.unsent))
}

// The name of the message of an event of a kind, if it has a message, and that a name.
fn message_name(
    alloc: Global,
    names: &Names,
    kind: LogKind,
) -> Result<Option<Bytes<'static>>, AllocError>
    ensures { IfOk result (λ name. name ≡ message_name names.now kind) }
{
    let message = match kind {
        LogKind::Send(message) | LogKind::Receive(message) => message,
        LogKind::Local | LogKind::Restart | LogKind::Outside => return Ok(None),
    };
    match names.name(message.0 as usize) {
        Some(name) => Ok(Some(Bytes::from_slice(alloc, name)?)),
        None => Ok(None),
    }
}

// What is told of the event of a fault, whose message has this name.
fn disorder(fault: OrderFault, message: Option<Bytes<'static>>) -> Option<Disorder>
    ensures { result ≡ disorder_of message.entry fault }
{
    match fault {
        OrderFault::SentTwice(_) => Some(Disorder::SentTwice(message)),
        OrderFault::Unsent(_) => Some(Disorder::Unsent(message)),
        OrderFault::Cycle(_) => Some(Disorder::Cycle),
        OrderFault::Memory => None,
    }
}

// What a fault tells of a log of some files: the event that it names, with the line of that and the name of its message.
fn bad_event(
    alloc: Global,
    log: &Log,
    files: &Files,
    names: &Names,
    fault: OrderFault,
) -> Result<Option<BadEvent>, AllocError>
    requires { order_fault_place fault < length log.now.events }
    ensures { IfOk result (λ event. event ≡ bad_event files.now names.now log.now.events fault) }
{
    let (OrderFault::SentTwice(place) | OrderFault::Unsent(place) | OrderFault::Cycle(place)) =
        fault
    else {
        return Ok(None);
    };
    let event = log.at(place);
    let message = message_name(alloc, names, event.kind)?;
    let Some(why) = disorder(fault, message) else {
        return Ok(None);
    };
    let location = files.location(u64::from(event.line))?;
    Ok(Some(BadEvent { location, why }))
}

// What faults tell of a log of some files.
fn bad_events(
    alloc: Global,
    log: &Log,
    files: &Files,
    names: &Names,
    faults: &[OrderFault],
) -> Result<Vec<BadEvent>, AllocError>
    requires { All (λ fault. order_fault_place fault < length log.now.events) faults.now }
    ensures { IfOk result (λ events. events.items ≡ filter_map (bad_event files.now names.now log.now.events) faults.now) }
{
    let mut events = Vec::new(alloc);
    for fault in faults {
        if let Some(event) = bad_event(alloc, log, files, names, *fault)? {
            events.push(event)?;
        }
    }
    Ok(events)
}

// The faults of a log that are told, of which this is the first: it, or each of a message, if each is to be told.
fn told_faults(
    alloc: Global,
    log: &Log,
    messages: u32,
    rule: FaultRule,
    fault: OrderFault,
) -> Result<Vec<OrderFault>, AllocError>
    requires { All (IsNumbered messages) log.now.events }
    ensures { IfOk result (λ faults. faults.items ≡ told_faults rule log.now.events fault) }
{
    match (rule, fault) {
        (FaultRule::TellEach, OrderFault::SentTwice(_) | OrderFault::Unsent(_)) => {
            faults_of_messages(alloc, log, messages)
        }
        (_, fault) => {
            let mut faults = Vec::new(alloc);
            faults.push(fault)?;
            Ok(faults)
        }
    }
}

// What can't be opened in a log that has this fault, or that there is no memory to tell.
fn bad_order(
    alloc: Global,
    log: &Log,
    files: &Files,
    names: &Names,
    messages: u32,
    rule: FaultRule,
    fault: OrderFault,
) -> Result<Vec<BadEvent>, AllocError>
    requires fault { IsFaultOf log.now.events fault }
    requires known { ¬ (fault ≡ OrderFault.Memory) }
    requires numbered { All (IsNumbered messages) log.now.events }
    ensures { IfOk result (λ events. events.items ≡ filter_map (bad_event files.now names.now log.now.events) (told_faults rule log.now.events fault)) }
{
    let faults = told_faults(alloc, log, messages, rule, fault)?;
    bad_events(alloc, log, files, names, &faults)
}

// The fault of opening that it is.
fn fault_of(
    alloc: Global,
    log: &Log,
    files: &Files,
    names: &Names,
    messages: u32,
    rule: FaultRule,
    fault: OrderFault,
) -> OpenFault
    requires fault { IsFaultOf log.now.events fault }
    requires refused { IsRefused rule fault }
    requires numbered { All (IsNumbered messages) log.now.events }
    ensures { TellsDisorder rule files.now names.now log.now.events result }
{
    if fault == OrderFault::Memory {
        return OpenFault::Records(RecordsFault::Memory);
    }
    match bad_order(alloc, log, files, names, messages, rule, fault) {
        Ok(events) => OpenFault::Bad(BadInput::Events(events)),
        Err(_) => OpenFault::Records(RecordsFault::Memory),
    }
}

// Events that are opened of a log, with a causal order of them; if they aren't all, their places in it.
#[derive(Drop)]
struct Part {
    log: Log,
    order: Vec<EventId>,
    kept: Option<Vec<EventId>>,
}

// The records of the events at these places, which wait.
fn cycle_lines(alloc: Global, log: &Log, places: &[EventId]) -> Result<Vec<BadLine>, AllocError>
    requires { All (λ place. place.0 < length log.now.events) places.now }
    ensures { IfOk result (λ lines. lines.items ≡ map (cycle_line log.now.events) (places_of places.now)) }
{
    let mut lines = Vec::new(alloc);
    for place in places {
        lines.push(BadLine {
            line: log.at(*place).line,
            why: BadLog::Cycle,
        })?;
    }
    Ok(lines)
}

// Leaves the records of the events at these places out, which wait.
fn leave_cycles_out(
    alloc: Global,
    log: &Log,
    places: &[EventId],
    details: &mut LogDetails,
) -> Result<(), AllocError>
    requires { All (λ place. place.0 < length log.now.events) places.now }
    ensures { OnOk result (details.new ≡ with_left_out details.old (map (cycle_line log.now.events) (places_of places.now))) }
{
    let lines = cycle_lines(alloc, log, places)?;
    details.leave_out(&lines)
}

// The events of a log that have a place in some causal order. Some have none: their records are left out.
fn without_cycles(
    alloc: Global,
    log: &Log,
    details: &mut LogDetails,
    messages: u32,
) -> Result<Part, OpenFault>
    requires numbered { All (IsNumbered messages) log.now.events }
    requires sound { AreMessagesSound log.now.events }
    requires waits { (e : ℕ) × Waits log.now.events e }
    ensures part { IfOk result (λ part. IsPartOpened FaultRule.LeaveOut log.now.events part.log.events
        (option_map (λ kept. places_of kept.items) part.kept) details.old details.new) }
    ensures order { IfOk result (λ part. IsCausalOrder part.log.events (places_of part.order.items)) }
    ensures kept_sound { IfOk result (λ part. AreMessagesSound part.log.events) }
    ensures memory { IfErr result (λ fault. fault ≡ OpenFault.Records RecordsFault.Memory) }
{
    let Ok(parted) = part(alloc, log, messages) else {
        return Err(OpenFault::Records(RecordsFault::Memory));
    };
    let Ok(()) = leave_cycles_out(alloc, log, &parted.left_out, details) else {
        return Err(OpenFault::Records(RecordsFault::Memory));
    };
    let Parted {
        log,
        order,
        kept,
        left_out: _,
    } = parted;
    Ok(Part {
        log,
        order,
        kept: Some(kept),
    })
}

// Whether a log is opened without the events for which this is its fault.
fn is_left_out(rule: FaultRule, fault: OrderFault) -> bool
    ensures { MatchBool result ((rule ≡ FaultRule.LeaveOut) × (first : EventId) × (fault ≡ OrderFault.Cycle first)) (IsRefused rule fault) }
{
    match (rule, fault) {
        (FaultRule::LeaveOut, OrderFault::Cycle(_)) => true,
        _ => false,
    }
}

// What is opened of a log that has this fault, if the rule says so.
fn part_without(
    alloc: Global,
    log: &Log,
    details: &mut LogDetails,
    names: &Names,
    messages: u32,
    rule: FaultRule,
    fault: OrderFault,
) -> Result<Part, OpenFault>
    requires fault { IsFaultOf log.now.events fault }
    requires numbered { All (IsNumbered messages) log.now.events }
    ensures part { IfOk result (λ part. IsPartOpened rule log.now.events part.log.events
        (option_map (λ kept. places_of kept.items) part.kept) details.old details.new) }
    ensures order { IfOk result (λ part. IsCausalOrder part.log.events (places_of part.order.items)) }
    ensures sound { IfOk result (λ part. AreMessagesSound part.log.events) }
    ensures fault { IfErr result (TellsDisorder rule details.old.files names.now log.now.events) }
{
    if is_left_out(rule, fault) {
        return without_cycles(alloc, log, details, messages);
    }
    let files = details.files();
    Err(fault_of(alloc, log, files, names, messages, rule, fault))
}

// What is opened of a log, whose messages have these names. No one needs the names after it, so their memory is given back.
fn part_of(
    alloc: Global,
    log: Log,
    details: &mut LogDetails,
    names: Names,
    messages: u32,
    rule: FaultRule,
) -> Result<Part, OpenFault>
    requires { All (IsNumbered messages) log.events }
    ensures part { IfOk result (λ part. IsPartOpened rule log.events part.log.events
        (option_map (λ kept. places_of kept.items) part.kept) details.old details.new) }
    ensures order { IfOk result (λ part. IsCausalOrder part.log.events (places_of part.order.items)) }
    ensures sound { IfOk result (λ part. AreMessagesSound part.log.events) }
    ensures fault { IfErr result (TellsDisorder rule details.old.files names log.events) }
{
    match causal_order(alloc, &log, messages) {
        Ok(order) => Ok(Part {
            log,
            order,
            kept: None,
        }),
        Err(fault) => part_without(alloc, &log, details, &names, messages, rule, fault),
    }
}

// Below which number the messages of a log are once its events may be put in order, how many receives were taken as local events for that, and how
// many sends sent a message again.
#[derive(Clone, Copy)]
struct Taken {
    messages: u32,
    unsent: Option<u32>,
    resent: Option<u32>,
}

// Takes messages that are sent again, and receives of messages that nobody sends, as the rules say.
fn take_messages(
    alloc: Global,
    log: &mut Log,
    messages: u32,
    rules: LogRules,
) -> Result<Taken, AllocError>
    requires few { messages ≤ 2 * MAX_CAPACITY }
    requires numbered { All (IsNumbered messages) log.old.events }
    ensures events { OnOk result (log.new.events ≡ opened_events rules messages log.old.events) }
    ensures resent { IfOk result (λ taken. taken.resent ≡ resent_of rules.resent log.old.events) }
    ensures unsent { IfOk result (λ taken. taken.unsent ≡ unsent_of rules messages log.old.events) }
    ensures numbered { IfOk result (λ taken. All (IsNumbered taken.messages) log.new.events) }
    ensures in_range { OnOk result (All IsInRange log.old.events → All IsInRange log.new.events) }
{
    let (messages, resent) = take_resent(alloc, log, messages, rules)?;
    let unsent = take_unsent(alloc, log, messages, rules)?;
    Ok(Taken {
        messages,
        unsent,
        resent,
    })
}

// A log in a causal order, with what was done to its events before.
#[derive(Drop)]
struct Ordered {
    log: OrderedLog,
    kept: Option<Vec<EventId>>,
    unsent: Option<u32>,
    resent: Option<u32>,
}

// The log with its events in a causal order, how many receives were taken as local events, and how many sends sent a message again. Its messages have
// these names. The records of events that were left out are told among its details.
fn in_order(
    alloc: Global,
    mut log: Log,
    details: &mut LogDetails,
    names: Names,
    messages: u32,
    rules: LogRules,
) -> Result<Ordered, OpenFault>
    requires few { length details.old.nodes ≤ MAX_LOG_NODES }
    requires messages { messages ≤ 2 * MAX_CAPACITY }
    requires named { AreOfNodes (length details.old.nodes) log.events }
    requires numbered { All (IsNumbered messages) log.events }
    requires in_range { All IsInRange log.events }
    ensures nodes { IfOk result (λ ordered. ordered.log.nodes ≡ length details.old.nodes) }
    ensures ordered { IfOk result (λ ordered. (lines : List BadLine) × IsOrderedOf rules messages log.events
        (option_map (λ kept. places_of kept.items) ordered.kept) lines ordered.log ordered.unsent ordered.resent
        × (details.new ≡ with_left_out details.old lines)) }
    ensures fault { IfErr result (TellsDisorder rules.faults details.old.files names (opened_events rules messages log.events)) }
{
    let Ok(taken) = take_messages(alloc, &mut log, messages, rules) else {
        return Err(OpenFault::Records(RecordsFault::Memory));
    };
    let nodes = details.nodes().len() as u16;
    let Part { log, order, kept } = part_of(
        alloc,
        log,
        details,
        names,
        taken.messages,
        rules.faults,
    )?;
    let log = OrderedLog::new(alloc, log, order, taken.messages, nodes, rules.receives)?;
    Ok(Ordered {
        log,
        kept,
        unsent: taken.unsent,
        resent: taken.resent,
    })
}

// Opens a log that was read.
fn open_text(alloc: Global, text: LogText, rules: LogRules) -> Result<OpenLog, OpenFault>
    ensures opened { IfOk result (IsOpenedOf rules text) }
    ensures fault { IfErr result (TellsDisorder rules.faults text.details.files text.message_names (opened_events rules text.messages text.log.events)) }
{
    let messages = text.messages();
    let (log, message_names, mut details) = text.into_parts();
    let Ordered {
        log,
        kept,
        unsent,
        resent,
    } = in_order(alloc, log, &mut details, message_names, messages, rules)?;
    Ok(OpenLog {
        ordered: log,
        details,
        kept,
        unsent,
        resent,
        full: rules.form.full(),
    })
}

/// Opens a log of at most so many records: reads it to its end, takes messages that are sent again, and receives of messages that nobody
/// sends, as its rules say, and puts its events in a causal order. Where bad records are left out, so are events that have no place in any.
///
/// A receive of such a message came in from outside if the log tells what the message carried; others become local events, or the log
/// can't be opened. It takes memory as `read_log`, `take_resent`, `causal_order`, `part` and `OrderedLog::new` do.
pub fn open_log<R: Read + Drop>(
    alloc: Global,
    reader: R,
    rules: LogRules,
    most: u32,
    key: NameKey,
) -> Result<OpenLog, OpenFault>
    requires { most ≤ MAX_CAPACITY }
    // What is opened is what the bytes say, all of them. `OpenLog::ordered` says what is so of each opened log.
    ensures opened { IfOk result (IsOpened rules most (R.remaining reader)) }

    // A record that is bad is the first such that isn't left out, and if there is none, the fault of order is that of `causal_order`.
    ensures fault { IfErr result (ExplainsOpenFault rules most (R.remaining reader)) }
{
    let text = read_log(alloc, reader, rules, most, key)?;
    open_text(alloc, text, rules)
}
