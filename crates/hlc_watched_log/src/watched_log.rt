// What is kept of a log that is watched.

ghost use Rattle.std.specs.Prelude.{◌≡◌, ◌<◌, OnOk, length};
ghost use Rattle.std.specs.Io.KnownBytes.{Appends};
ghost use Rattle.hlc_csv.specs.Rows.{text_of};
ghost use Rattle.hlc_log.specs.declared.log_event.TheConstants.{MAX_LOG_NODES};
ghost use Rattle.hlc_log_text.specs.Names.{with_name};
ghost use Rattle.hlc_watched_log.specs.Numbers.{name_number};
ghost use Rattle.hlc_watched_log.specs.Summary.{with_node};

use crate::event_rows::{is_over, write_bad, write_event};
use crate::file_lines::FileLines;
use crate::found::found_in;
use crate::log_names::LogNames;
use crate::named_event::{kind_of, message_name, unwatched};
use crate::node_tally::{NodeTally, claimed_ahead, one_more};
use crate::numbers::name_number;
use crate::skews::{ShownSkews, take_skews};
use crate::summary::write_summary;
use crate::watch_counts::WatchCounts;
use crate::watch_rules::WatchRules;
use csv::ByteRecord;
use hlc_csv::{OutputFault, field};
use hlc_log::LogEvent;
use hlc_log_text::{
    BadLog, Extras, NODE_PLACE, NameKey, NameSet, NodeNames, RecordHead, RecordItem,
};
use hlc_stamp::NodeId;
use hlc_watch::{Complete, FileLine, RuledEvent, Watch};
use std::alloc::{AllocError, Global};
use std::collections::BTreeMap;
use std::io::Write;
use std::marker::Model;

// The names of nodes and files, where the lines of these stand, what is counted of each node, how many events came, what is kept of these, and the
// skews that they show.
pub(crate) struct LogWatch {
    names: LogNames,
    files: FileLines,
    tallies: Vec<NodeTally>,
    events: u32,
    watch: Watch<NameKey>,
    skews: ShownSkews,
    counts: WatchCounts,
    alloc: Global,
}

// One function drops it, so that whoever owns it has one call on each way out.
impl Drop for LogWatch {
    fn drop(self) {
        let LogWatch {
            names: _,
            files: _,
            tallies: _,
            events: _,
            watch: _,
            skews: _,
            counts: _,
            alloc: _,
        } = self;
    }
}

impl Model for LogWatch {
    ghost use Rattle.hlc_watched_log.specs.Watched.{WatchedLog};

    ghost Value = { WatchedLog };

    ghost view = { λ w. record {
      names = w.names;
      files = w.files;
      tallies = w.tallies.items;
      events = w.events;
      kept = w.watch;
      skews = w.skews.entries;
      counts = w.counts;
    } };
}

// Adds the name of a node of this number, if it is new.
fn add_node(
    nodes: &mut NodeNames,
    tallies: &mut Vec<NodeTally>,
    name: &[u8],
    number: usize,
) -> Result<(), AllocError>
    requires number { number ≡ name_number nodes.old name.now }
    requires one_each { length tallies.old.items ≡ length nodes.old }
    ensures names { OnOk result (nodes.new ≡ with_name nodes.old name.now) }
    ensures tallies { OnOk result (tallies.new.items ≡ with_node tallies.old.items number) }
    ensures one_each { OnOk result (length tallies.new.items ≡ length nodes.new) }
    ensures within { OnOk result (number < length tallies.new.items) }
{
    if number == tallies.len() {
        nodes.mention(name)?;
        tallies.push(NodeTally::new())?;
    }
    Ok(())
}

impl LogWatch {
    ghost use Rattle.std.specs.Prelude.{◌≡◌, ◌^◌, ◌+◌, ◌-◌, ◌<◌, ◌≤◌, ◌∷◌, [], IfOk, Ok, OnOk, length};
    ghost use Rattle.csv.specs.Records.{fields_of};
    ghost use Rattle.hlc_log.specs.Events.{IsSmallCarried};
    ghost use Rattle.hlc_log_text.specs.LogHeader.{HasSmallCarried, IsSmallTold};
    ghost use Rattle.hlc_watched_log.specs.Taken.{IsWhole, Takes, TakesEvent, TakesItem, complete_in};
    ghost use Rattle.hlc_watched_log.specs.Files.{line_here};
    ghost use Rattle.hlc_watched_log.specs.Numbers.{name_number};
    ghost use Rattle.hlc_watched_log.specs.Watched.{bad_row, complete_next, due_rows, event_by, event_rows, in_file, is_told, no_events, on_line, summary_rows, with_counted, with_event, with_watched, without_bad};

    // Nothing came.
    pub(crate) fn new(
        alloc: Global,
        rules: WatchRules,
        key: NameKey,
    ) -> Result<LogWatch, AllocError>
        ensures nothing { IfOk result (λ log. log ≡ no_events rules.keep) }
        ensures whole { IfOk result IsWhole }
    {
        let files = FileLines::new(alloc)?;
        let watch = Watch::new(alloc, rules.keep, key)?;
        Ok(LogWatch {
            names: LogNames {
                nodes: NodeNames::new(alloc, key),
                files: NameSet::new(alloc, key),
            },
            files,
            tallies: Vec::new(alloc),
            events: 0,
            watch,
            skews: BTreeMap::new(alloc),
            counts: WatchCounts::new(),
            alloc,
        })
    }

    // The number of the file that is read.
    pub(crate) fn file(&self) -> u32
        ensures file { result ≡ self.now.files.current }
        ensures within { result < length self.now.files.counted }
    {
        self.files.current()
    }

    // The next record stands on a line of the input.
    pub(crate) fn move_to(&mut self, line: u32)
        ensures { self.new ≡ on_line self.old line }
    {
        self.files.move_to(line);
    }

    // A mark on a line begins a file of a name, or goes on with it. Answers the number of the file.
    pub(crate) fn begin_file(&mut self, name: &[u8], line: u32) -> Result<u32, AllocError>
        requires whole { IsWhole self.old }
        requires few { length self.old.files.counted < 2 ^ 32 - 1 }
        ensures file { IfOk result (λ file. file ≡ name_number self.old.names.files name.now + 1) }
        ensures begun { OnOk result (self.new ≡ in_file self.old name.now line) }
        ensures whole { OnOk result (IsWhole self.new) }
    {
        let file = name_number(&self.names.files, name) as u32 + 1;
        self.names.files.mention(name)?;
        self.files.begin(file, line)?;
        Ok(file)
    }

    // How many events came.
    pub(crate) fn events(&self) -> u32
        ensures { result ≡ self.now.events }
    {
        self.events
    }

    // What was found.
    pub(crate) fn counts(&self) -> WatchCounts
        ensures { result ≡ self.now.counts }
    {
        self.counts
    }

    // Writes the rows that sum the log up.
    pub(crate) fn sum_up<W: Write>(&self, writer: &mut W) -> Result<(), OutputFault>
        requires { IsWhole self.now }
        ensures { OnOk result (Appends (W.contents writer.old) (W.contents writer.new) (text_of (summary_rows self.now))) }
    {
        write_summary(
            self.alloc,
            &self.names,
            &self.tallies,
            &self.skews,
            self.counts,
            self.watch.waiting(),
            self.watch.forgotten(),
            writer,
        )
    }

    // The same, if they are due.
    fn sum_up_if_due<W: Write>(&self, every: Option<u32>, writer: &mut W) -> Result<(), OutputFault>
        requires { IsWhole self.now }
        ensures { OnOk result (Appends (W.contents writer.old) (W.contents writer.new) (text_of (due_rows every self.now))) }
    {
        match every {
            Some(every) if every != 0 && self.events % every == 0 => self.sum_up(writer),
            _ => Ok(()),
        }
    }

    // The number of a node by its name, which a new one takes at the end of all.
    fn number_node(&mut self, name: &[u8]) -> usize
        ensures number { result ≡ name_number self.old.names.nodes name.now }
        ensures same { self.new ≡ self.old }
    {
        let count = self.names.nodes.names().len();
        self.names.nodes.number(name).unwrap_or(count)
    }

    // Counts an event on this line, whose node has this name and number, and gives it by numbers.
    fn count_event(
        &mut self,
        head: &RecordHead,
        extras: &Extras,
        line: FileLine,
        node: &[u8],
        number: usize,
    ) -> Result<LogEvent, AllocError>
        requires number { number ≡ name_number self.old.names.nodes node.now }
        requires few { number < MAX_LOG_NODES }
        requires whole { IsWhole self.old }
        requires room { self.old.events < 2 ^ 32 - 1 }
        requires here { line ≡ line_here self.old.files }
        ensures event { IfOk result (λ event. event ≡ event_by self.old head.now extras.now node.now) }
        ensures counted { IfOk result (λ event. self.new ≡ with_counted self.old node.now event) }
        ensures whole { OnOk result (IsWhole self.new) }
    {
        add_node(&mut self.names.nodes, &mut self.tallies, node, number)?;
        let event = LogEvent {
            node: NodeId(number as u16),
            reading: head.reading,
            has_reading: head.has_reading,
            kind: kind_of(head.word),
            stamp: head.stamp,
            has_stamp: head.has_stamp,
            carried: extras.carried,
            seq: extras.seq,
            line: line.number,
        };
        self.events += 1;
        self.tallies[number].take(line, &event);
        Ok(event)
    }

    // Watches an event of the file with this number, whose message has this name: finds what is complete with it, and answers whether there is a row
    // of that.
    fn watch_event(
        &mut self,
        rules: &WatchRules,
        file: u32,
        event: &LogEvent,
        message: &[u8],
        complete: &mut Complete,
    ) -> Result<bool, AllocError>
        requires small { IsSmallCarried event.now.carried }
        requires here { file ≡ self.old.files.current }
        ensures complete { OnOk result (complete_in complete.new ≡ complete_next rules.now self.old event.now message.now) }
        ensures told { IfOk result (λ told. told ≡ is_told rules.now (complete_in complete.new) event.now) }
        ensures watched { OnOk result (self.new ≡ with_watched rules.now self.old message.now event.now) }
    {
        let ruled = RuledEvent::new(rules.records.receives, file, event);
        self.watch.event(&ruled, message, complete)?;
        take_skews(&mut self.skews, complete)?;
        let found = found_in(rules.records.form.full(), complete);
        let over_limit = is_over(rules.limit, claimed_ahead(event));
        self.counts = self.counts.with_event(event.kind, found.broken, over_limit);
        Ok(found.tells(over_limit))
    }

    // Watches an event on this line, whose message has this name, and tells of it.
    fn tell<W: Write>(
        &mut self,
        rules: &WatchRules,
        event: &LogEvent,
        line: FileLine,
        message: &[u8],
        writer: &mut W,
    ) -> Result<(), OutputFault>
        requires small { IsSmallCarried event.now.carried }
        requires here { line ≡ line_here self.old.files }
        ensures watched { OnOk result (self.new ≡ with_watched rules.now self.old message.now event.now) }
        ensures told { OnOk result (Appends (W.contents writer.old) (W.contents writer.new)
            (text_of (event_rows rules.now self.old.names (complete_next rules.now self.old event.now message.now) line event.now))) }
    {
        let mut complete = Complete {
            event: None,
            waited: Vec::new(self.alloc),
        };
        let told = self.watch_event(rules, line.file, event, message, &mut complete)?;
        write_event(
            self.alloc,
            &self.names,
            rules,
            &complete,
            line,
            event,
            told,
            writer,
        )
    }

    // Adds an event of a node and a message with these names, the number of the node being known, and tells of it. Gives it by numbers.
    fn add<W: Write>(
        &mut self,
        rules: &WatchRules,
        head: &RecordHead,
        extras: &Extras,
        node: &[u8],
        number: usize,
        message: &[u8],
        writer: &mut W,
    ) -> Result<LogEvent, OutputFault>
        requires number { number ≡ name_number self.old.names.nodes node.now }
        requires few { number < MAX_LOG_NODES }
        requires whole { IsWhole self.old }
        requires room { self.old.events < 2 ^ 32 - 1 }
        requires small { IsSmallCarried extras.now.carried }
        ensures event { IfOk result (λ event. event ≡ event_by self.old head.now extras.now node.now) }
        ensures kept { IfOk result (λ event. self.new ≡ with_event rules.now self.old node.now message.now event) }
        ensures told { IfOk result (λ event. Appends (W.contents writer.old) (W.contents writer.new)
            (text_of (event_rows rules.now self.new.names (complete_next rules.now self.old event message.now) (line_here self.old.files) event))) }
        ensures whole { OnOk result (IsWhole self.new) }
    {
        let line = self.files.line_here();
        let event = self.count_event(head, extras, line, node, number)?;
        self.tell(rules, &event, line, message, writer)?;
        Ok(event)
    }

    // Adds an event and tells of it, or tells why it can't be watched. Its names stand in these fields.
    fn take_event<W: Write>(
        &mut self,
        rules: &WatchRules,
        head: &RecordHead,
        extras: &Extras,
        placed: &ByteRecord,
        writer: &mut W,
    ) -> Result<Option<BadLog>, OutputFault>
        requires whole { IsWhole self.old }
        requires room { self.old.events < 2 ^ 32 - 1 }
        requires small { IsSmallCarried extras.now.carried }
        ensures taken { IfOk result (TakesEvent rules.now head.now extras.now (fields_of placed.now) self.old
            (W.contents writer.old) (W.contents writer.new) self.new) }
        ensures whole { OnOk result (IsWhole self.new) }
        ensures counted { OnOk result (self.new.events ≤ self.old.events + 1) }
    {
        let node = field(placed, NODE_PLACE);
        let message = message_name(rules.records.form, head.word, placed);
        let number = self.number_node(node);
        if let Some(why) = unwatched(
            rules.records.form,
            head.word,
            head.has_stamp,
            message,
            number,
        ) {
            return Ok(Some(why));
        }
        self.add(rules, head, extras, node, number, message, writer)?;
        self.sum_up_if_due(rules.every, writer)?;
        Ok(None)
    }

    // Takes what a record says, or tells why it is bad.
    fn take_item<W: Write>(
        &mut self,
        rules: &WatchRules,
        item: &RecordItem,
        placed: &ByteRecord,
        writer: &mut W,
    ) -> Result<Option<BadLog>, OutputFault>
        requires whole { IsWhole self.old }
        requires room { self.old.events < 2 ^ 32 - 1 }
        requires small { IsSmallTold item.now }
        ensures taken { IfOk result (TakesItem rules.now (Ok item.now) (fields_of placed.now) self.old
            (W.contents writer.old) (W.contents writer.new) self.new) }
        ensures whole { OnOk result (IsWhole self.new) }
        ensures counted { OnOk result (self.new.events ≤ self.old.events + 1) }
    {
        match item {
            RecordItem::Event(head, extras) => {
                self.take_event(rules, head, extras, placed, writer)
            }
            RecordItem::Other => Ok(None),
        }
    }

    // The same, if it isn't bad itself.
    fn take_told<W: Write>(
        &mut self,
        rules: &WatchRules,
        told: &Result<RecordItem, BadLog>,
        placed: &ByteRecord,
        writer: &mut W,
    ) -> Result<Option<BadLog>, OutputFault>
        requires whole { IsWhole self.old }
        requires room { self.old.events < 2 ^ 32 - 1 }
        requires small { HasSmallCarried told.now }
        ensures taken { IfOk result (TakesItem rules.now told.now (fields_of placed.now) self.old (W.contents writer.old) (W.contents writer.new) self.new) }
        ensures whole { OnOk result (IsWhole self.new) }
        ensures counted { OnOk result (self.new.events ≤ self.old.events + 1) }
    {
        match told {
            Ok(item) => self.take_item(rules, item, placed, writer),
            Err(why) => Ok(Some(*why)),
        }
    }

    // Writes the row of a record that is bad.
    pub(crate) fn write_bad<W: Write>(&self, why: BadLog, writer: &mut W) -> Result<(), OutputFault>
        ensures { OnOk result (Appends (W.contents writer.old) (W.contents writer.new)
            (text_of (bad_row self.now.names.files (line_here self.now.files) why ∷ []))) }
    {
        write_bad(self.alloc, &self.names, self.files.line_here(), why, writer)
    }

    // Counts a record that is bad.
    fn count_bad(&mut self)
        ensures { self.new ≡ without_bad self.old }
    {
        self.counts.left_out = one_more(self.counts.left_out);
    }

    // Takes what a record was read as, and answers it. If it is bad and isn't left out, that ends the watch.
    pub(crate) fn take<W: Write>(
        &mut self,
        rules: &WatchRules,
        told: &Result<RecordItem, BadLog>,
        placed: &ByteRecord,
        writer: &mut W,
    ) -> Result<Option<BadLog>, OutputFault>
        requires whole { IsWhole self.old }
        requires room { self.old.events < 2 ^ 32 - 1 }
        requires small { HasSmallCarried told.now }
        ensures taken { IfOk result (Takes rules.now told.now (fields_of placed.now) self.old (W.contents writer.old) (W.contents writer.new) self.new) }
        ensures whole { OnOk result (IsWhole self.new) }
        ensures counted { OnOk result (self.new.events ≤ self.old.events + 1) }
    {
        let Some(why) = self.take_told(rules, told, placed, writer)? else {
            return Ok(None);
        };
        self.write_bad(why, writer)?;
        self.count_bad();
        if rules.records.faults.leaves_out(why) {
            Ok(None)
        } else {
            Ok(Some(why))
        }
    }
}
