// A log while it is read.

ghost use Rattle.std.specs.Prelude.{◌≡◌, ◌^◌, ◌<◌, ◌≤◌, ◌∷◌, ◌++◌, ℕ, List, [], IfOk, IsTrue, MatchResult, None, OnOk, Some, ◌&&◌, false, length, option_map, slice_get, true};
ghost use Rattle.std.specs.List.{list_any};
ghost use Rattle.std.specs.Str.{bytes_eq};
ghost use Rattle.csv.specs.Records.{fields_of};
ghost use Rattle.hlc_csv.specs.Rows.{field_of};
ghost use Rattle.hlc_log_text.specs.BadRecords.{MayBeLeftOut, bad_records_on, told_before};
ghost use Rattle.hlc_log_text.specs.Columns.{columns_of};
ghost use Rattle.hlc_log_text.specs.LogItem.{LogItem, asks, columns_after, extend, header_item, item_after, item_from, item_in, other_item, skip_item, events_in, unless_sent};
ghost use Rattle.hlc_log_text.specs.LogText.{apart_count, node_of, unnamed_in};
ghost use Rattle.hlc_log_text.specs.LogWord.{log_word_of};
ghost use Rattle.hlc_log_text.specs.Names.{with_name};
ghost use Rattle.hlc_log_text.specs.NamedEvent.{if_message, if_sender, is_sent_by, sends_again_by, told_by, with_extras};
ghost use Rattle.hlc_log_text.specs.PartialLog.{AddsNext, AsksNext, BeginsNext, HasFewNames, HasPlace, IsFinished, IsNextLine, IsPartialLog, KeepMarks, KeepsMarksBy, LeavesNext, NumbersNode, SkipsNext, TakesNext, TakesSaid, TellsKind, TellsLeftOut, apart_log, nodes_named, text_with, told_line};
ghost use Rattle.hlc_log_text.specs.Question.{asked_of, plain_asked};
ghost use Rattle.hlc_log_text.specs.ReadText.{IsSoundText};

use crate::bad_log::{BadLine, BadLog, BadRecord};
use crate::columns::names_sender;
use crate::extras::{Beside, Extras};
use crate::fault::LogTextFault;
use crate::fault_rule::FaultRule;
use crate::file_mark::begun_file;
use crate::files::Files;
use crate::labels::Labels;
use crate::log_details::LogDetails;
use crate::log_header::LogHeader;
use crate::log_rules::LogRules;
use crate::log_text::LogText;
use crate::log_word::LogWord;
use crate::missing::missing_by;
use crate::name_key::NameKey;
use crate::name_set::NameSet;
use crate::names::Names;
use crate::node_names::NodeNames;
use crate::question::LogQuestion;
use crate::record_head::{NODE_PLACE, RecordHead, label, message_place, parse_whole};
use crate::sent_marks::SentMarks;
use crate::skipped::{Skipped, begins_as_skip};
use crate::stamp_form::StampForm;
use csv::ByteRecord;
use hlc_csv::{FoundRecord, field};
use hlc_log::{Log, LogEvent, LogKind, MAX_LOG_NODES, MessageId, tell_apart};
use hlc_stamp::{EventId, NodeId};
use std::alloc::{AllocError, Global};
use std::mem;

// What was read, with all names, and the line on which the last record begins: 0 if there is none.
pub(crate) struct PartialLog {
    log: Log,
    nodes: NodeNames,
    messages: NameSet,
    labels: Labels,
    // The names of the nodes that receives tell in place of their messages.
    senders: Labels,
    questions: Vec<LogQuestion>,
    pub(crate) line: u32,
    files: Files,
    header: LogHeader,
    skipped: Option<Skipped>,
    left_out: Vec<BadLine>,
    // Which messages were sent, if records that send one of these are bad.
    sent: SentMarks,
}

// One function drops it, so that whoever owns it has one call on each way out.
impl Drop for PartialLog {
    fn drop(self) {
        let Self {
            log: _,
            nodes: _,
            messages: _,
            labels: _,
            senders: _,
            questions: _,
            line: _,
            files: _,
            header: _,
            skipped: _,
            left_out: _,
            sent: _,
        } = self;
    }
}

// The names of a record, and its label.
#[derive(Clone, Copy)]
struct RecordNames<'a> {
    node: &'a [u8],
    // Of a message, if the word has one. It may be empty.
    message: &'a [u8],
    // The field of the column `from`, if there is such a column.
    from: Option<&'a [u8]>,
    label: Option<&'a [u8]>,
}

// The number of a node, unless it would be one too many.
fn number_node(nodes: &mut NodeNames, name: &[u8]) -> Result<Option<NodeId>, AllocError>
    requires { length nodes.old ≤ MAX_LOG_NODES }
    ensures { IfOk result (NumbersNode nodes.old nodes.new name.now) }
{
    match nodes.number(name) {
        Some(number) => Ok(Some(NodeId(number as u16))),
        None => mention_node(nodes, name),
    }
}

// The number of a node of a new name, unless it would be one too many.
fn mention_node(nodes: &mut NodeNames, name: &[u8]) -> Result<Option<NodeId>, AllocError>
    requires few { length nodes.old ≤ MAX_LOG_NODES }
    requires new { list_any (bytes_eq name.now) nodes.old ≡ false }
    ensures { IfOk result (NumbersNode nodes.old nodes.new name.now) }
{
    if nodes.names().len() == MAX_LOG_NODES as usize {
        return Ok(None);
    }
    let number = nodes.mention(name)?;
    Ok(Some(NodeId(number as u16)))
}

// The number of a message.
fn number_name(messages: &mut NameSet, name: &[u8]) -> Result<MessageId, AllocError>
    requires { length messages.old < 2 ^ 32 }
    ensures { IfOk result (λ message. (messages.new ≡ with_name messages.old name.now) × (slice_get messages.new message.0 ≡ Some name.now)) }
{
    Ok(MessageId(messages.mention(name)? as u32))
}

// What an event is, with the number of its message.
fn number_message(messages: &mut NameSet, word: LogWord, name: &[u8]) -> Result<LogKind, AllocError>
    requires { length messages.old < 2 ^ 32 }
    ensures { IfOk result (TellsKind messages.old messages.new word name.now) }
{
    match word {
        LogWord::Local => Ok(LogKind::Local),
        LogWord::Send => Ok(LogKind::Send(number_name(messages, name)?)),
        LogWord::Receive => Ok(LogKind::Receive(number_name(messages, name)?)),
        LogWord::Restart => Ok(LogKind::Restart),
    }
}

// The name of the node that sent the message, if a record of the word names it in place of that.
fn sender<'a>(word: LogWord, from: Option<&'a [u8]>, message: &[u8]) -> Option<&'a [u8]>
    ensures { option_map (λ sender. sender.now) result ≡ if_sender word (option_map (λ from. from.now) from.entry) message.now }
{
    if word == LogWord::Receive && names_sender(from, message) {
        from
    } else {
        None
    }
}

// The node of a name, if it is one of a log's.
fn node_of(nodes: &NameSet, name: Option<&[u8]>) -> Option<NodeId>
    requires { length nodes.now ≤ MAX_LOG_NODES }
    ensures { result ≡ node_of nodes.now (option_map (λ name. name.now) name.entry) }
{
    let number = nodes.number(name?)?;
    Some(NodeId(number as u16))
}

// The nodes that so many events name as senders, by their places.
fn nodes_named(
    alloc: Global,
    nodes: &NameSet,
    senders: &Labels,
    count: u32,
) -> Result<Vec<Option<NodeId>>, AllocError>
    requires { length nodes.now ≤ MAX_LOG_NODES }
    ensures { IfOk result (λ named. named.items ≡ nodes_named nodes.now senders.now count) }
{
    let name = |place: u32| node_of(nodes, senders.get(EventId(place)));
    (0..count).map(name).collect(alloc)
}

impl PartialLog {
    // Nothing was read. Names are to be hashed by this key.
    pub(crate) fn new(alloc: Global, rules: LogRules, key: NameKey) -> PartialLog
        ensures log { IsPartialLog [] [] result }
        ensures marks { KeepsMarksBy rules result }
    {
        PartialLog {
            log: Log::new(alloc),
            nodes: NodeNames::new(alloc, key),
            messages: NameSet::new(alloc, key),
            labels: Labels::new(alloc),
            senders: Labels::new(alloc),
            questions: Vec::new(alloc),
            line: 0,
            files: Files::new(alloc),
            header: LogHeader::new(),
            skipped: None,
            left_out: Vec::new(alloc),
            sent: SentMarks::new(alloc, rules.leaves_sent()),
        }
    }

    // Takes in the next record, or tells why it is bad, unless the rules leave it out then. Its fields may be put into other places, in `arranged`.
    pub(crate) fn take(
        &mut self,
        rules: LogRules,
        fields: &ByteRecord,
        arranged: &mut ByteRecord,
        found: FoundRecord,
    ) -> Result<Option<BadLine>, AllocError>
        requires place { HasPlace self.old }
        requires marks { KeepsMarksBy rules self.old }
        ensures taken { IfOk result (TakesNext rules self.old (fields_of fields.now) found self.new) }
        ensures marks { KeepsMarksBy rules self.new }
    {
        let line = self.next_line(found);
        if found.is_open {
            return Ok(Some(BadLine {
                line,
                why: BadLog::Quote,
            }));
        }
        match self.take_at(rules, fields, arranged, line)? {
            Some(why) => self.leave_out(rules.faults, BadLine { line, why }),
            None => Ok(None),
        }
    }

    // These bad records, told by where they stand.
    fn located(&self, bad: &[BadLine]) -> Result<Vec<BadRecord>, AllocError>
        ensures { IfOk result (λ told. told.items ≡ bad_records_on self.now.files bad.now) }
    {
        let mut told = Vec::with_capacity(self.files.allocator(), bad.len())?;
        for line in bad {
            told.push(self.files.bad_record(*line)?)?;
        }
        Ok(told)
    }

    // The bad records that are told, if this one ends the reading.
    pub(crate) fn told_with(
        &self,
        rule: FaultRule,
        bad: BadLine,
    ) -> Result<Vec<BadRecord>, AllocError>
        ensures { IfOk result (λ told. told.items
            ≡ bad_records_on self.now.files (told_before rule self.now.left_out.items ++ bad ∷ [])) }
    {
        let mut told = match rule {
            FaultRule::TellEach => self.located(&self.left_out)?,
            FaultRule::First | FaultRule::LeaveOut => Vec::new(self.files.allocator()),
        };
        told.push(self.files.bad_record(bad)?)?;
        Ok(told)
    }

    // Ends the reading: nothing stands after what was read. If each bad record is to be told, there may be none.
    pub(crate) fn end(&self, rule: FaultRule) -> Result<(), LogTextFault>
        ensures { MatchResult result (λ _. MayBeLeftOut rule self.now.left_out.items) (TellsLeftOut rule self.now) }
    {
        if rule != FaultRule::TellEach || self.left_out.is_empty() {
            return Ok(());
        }
        Err(LogTextFault::Bad(self.located(&self.left_out)?))
    }

    // Leaves a bad record out, if the rule says so, or hands it back.
    fn leave_out(&mut self, rule: FaultRule, bad: BadLine) -> Result<Option<BadLine>, AllocError>
        ensures left { IfOk result (LeavesNext rule self.old bad self.new) }
        ensures marks { KeepMarks self.old self.new }
    {
        if !rule.leaves_out(bad.why) {
            return Ok(Some(bad));
        }
        self.left_out.push(bad)?;
        self.line = bad.line;
        self.header.pass();
        Ok(None)
    }

    // Takes in the next record, which begins on this line, or tells why it is bad.
    fn take_at(
        &mut self,
        rules: LogRules,
        fields: &ByteRecord,
        arranged: &mut ByteRecord,
        line: u32,
    ) -> Result<Option<BadLog>, AllocError>
        requires place { HasPlace self.old }
        requires line { IsNextLine self.old line }
        requires marks { KeepsMarksBy rules self.old }
        ensures taken { IfOk result (TakesSaid (λ items. item_after rules items (fields_of fields.now)) self.old line self.new) }
        ensures marks { KeepMarks self.old self.new }
    {
        if self.header.is_header(rules.syntax, fields) {
            return Ok(self.take_header(rules.form, fields, line));
        }
        let Some(word) = LogWord::parse(field(fields, 0)) else {
            return self.take_other(fields, line);
        };
        if let Some(column) = missing_by(rules.syntax, rules.form, word, fields) {
            return Ok(Some(BadLog::Missing(column)));
        }
        self.take_placed(rules, word, fields, arranged, line)
    }

    // Takes in a record that begins with a word of events, with its fields in the columns of the log, or tells why it is bad.
    fn take_placed(
        &mut self,
        rules: LogRules,
        word: LogWord,
        fields: &ByteRecord,
        arranged: &mut ByteRecord,
        line: u32,
    ) -> Result<Option<BadLog>, AllocError>
        requires word { log_word_of (field_of (fields_of fields.now) 0) ≡ Some word }
        requires place { HasPlace self.old }
        requires line { IsNextLine self.old line }
        ensures taken { IfOk result (TakesSaid
            (λ items. unless_sent self.old.sent.is_kept (events_in items) (item_in rules (columns_after rules items) (fields_of fields.now)))
            self.old line self.new) }
        ensures marks { KeepMarks self.old self.new }
    {
        let Some(columns) = self.header.columns(rules.syntax) else {
            return self.take_event(rules, word, fields, Beside::NOTHING, line);
        };
        columns.arrange(rules.form, word, fields, arranged)?;
        let beside = columns.beside(rules.form, word, fields);
        self.take_event(rules, word, arranged, beside, line)
    }

    // Takes in a header, or tells why it is bad.
    fn take_header(&mut self, form: StampForm, fields: &ByteRecord, line: u32) -> Option<BadLog>
        requires line { IsNextLine self.old line }
        ensures taken { TakesSaid (λ _. header_item form (columns_of (fields_of fields.now))) self.old line self.new result }
        ensures marks { KeepMarks self.old self.new }
    {
        if let Some(why) = self.header.take(form, fields) {
            return Some(why);
        }
        self.line = line;
        None
    }

    // Takes in a record that begins with a word of events, and tells this beside.
    fn take_event(
        &mut self,
        rules: LogRules,
        word: LogWord,
        fields: &ByteRecord,
        beside: Beside<'_>,
        line: u32,
    ) -> Result<Option<BadLog>, AllocError>
        requires word { log_word_of (field_of (fields_of fields.now) 0) ≡ Some word }
        requires place { HasPlace self.old }
        requires line { IsNextLine self.old line }
        ensures taken { IfOk result (TakesSaid
            (λ items. unless_sent self.old.sent.is_kept (events_in items)
            (extend beside.entry.extras (item_from rules (option_map (λ from. from.now) beside.entry.from) (fields_of fields.now))))
            self.old line self.new) }
        ensures marks { KeepMarks self.old self.new }
    {
        let (head, extras) = match parse_whole(rules, word, fields, beside) {
            Ok(said) => said,
            Err(why) => return Ok(Some(why)),
        };
        let names = RecordNames {
            node: field(fields, NODE_PLACE),
            message: field(fields, message_place(rules.form)),
            from: beside.from,
            label: label(rules.form, word, fields),
        };
        if self.sends_again(head.word, names.message) {
            return Ok(Some(BadLog::SentTwice));
        }
        if self.add(head, names, extras, line)? {
            return Ok(None);
        }
        Ok(Some(BadLog::Node))
    }

    // Whether a record that begins with a word, and names this message, sends one that an earlier record sends, if such records are bad.
    fn sends_again(&self, word: LogWord, message: &[u8]) -> bool
        ensures { (items : List LogItem) (lines : List ℕ) → IsPartialLog items lines self.now
            → result ≡ (self.now.sent.is_kept && sends_again_by (events_in items) word (if_message word message.now)) }
    {
        self.sent.is_kept() && word == LogWord::Send && !message.is_empty() && self.is_sent(message)
    }

    // Whether a record sends the message of a name, if that is kept.
    fn is_sent(&self, message: &[u8]) -> bool
        ensures { (items : List LogItem) (lines : List ℕ) → IsPartialLog items lines self.now → IsTrue self.now.sent.is_kept
            → result ≡ is_sent_by (events_in items) message.now }
    {
        match self.messages.number(message) {
            Some(number) => self.sent.has(number),
            None => false,
        }
    }

    // Takes in a record that begins with no word of events.
    fn take_other(&mut self, fields: &ByteRecord, line: u32) -> Result<Option<BadLog>, AllocError>
        requires place { HasPlace self.old }
        requires line { IsNextLine self.old line }
        ensures taken { IfOk result (TakesSaid (λ _. other_item (fields_of fields.now)) self.old line self.new) }
        ensures marks { KeepMarks self.old self.new }
    {
        if let Some(name) = begun_file(fields) {
            self.begin_file(name, line)?;
            return Ok(None);
        }
        if begins_as_skip(fields) {
            return Ok(self.take_skip(fields, line));
        }
        self.take_question(fields, line)
    }

    // Begins a file of this name, whose records have columns of their own.
    fn begin_file(&mut self, name: &[u8], line: u32) -> Result<(), AllocError>
        requires place { HasPlace self.old }
        requires line { IsNextLine self.old line }
        ensures begun { OnOk result (BeginsNext self.old name.now line self.new) }
        ensures marks { KeepMarks self.old self.new }
    {
        self.files.begin(name, line)?;
        self.line = line;
        self.header.begin_file();
        Ok(())
    }

    // Takes in a record that says that it was left out, or tells why it is bad.
    fn take_skip(&mut self, fields: &ByteRecord, line: u32) -> Option<BadLog>
        requires place { HasPlace self.old }
        requires line { IsNextLine self.old line }
        ensures taken { TakesSaid (λ _. skip_item (fields_of fields.now)) self.old line self.new result }
        ensures marks { KeepMarks self.old self.new }
    {
        if fields.len() != 1 {
            return Some(BadLog::Fields);
        }
        self.skip(line);
        None
    }

    // Counts a record that was left out.
    fn skip(&mut self, line: u32)
        requires place { HasPlace self.old }
        requires line { IsNextLine self.old line }
        ensures skipped { SkipsNext self.old line self.new }
        ensures marks { KeepMarks self.old self.new }
    {
        self.skipped = Some(Skipped::with(self.skipped, line));
        self.line = line;
        self.header.pass();
    }

    // Takes in a record that is to ask a question.
    fn take_question(
        &mut self,
        fields: &ByteRecord,
        line: u32,
    ) -> Result<Option<BadLog>, AllocError>
        requires { IsNextLine self.old line }
        ensures taken { IfOk result (TakesSaid (λ _. asks (asked_of (fields_of fields.now))) self.old line self.new) }
        ensures marks { KeepMarks self.old self.new }
    {
        let alloc = *self.questions.allocator();
        match LogQuestion::parse(alloc, fields)? {
            Ok(question) => {
                self.ask(question, line)?;
                Ok(None)
            }
            Err(why) => Ok(Some(why)),
        }
    }

    // Adds the event that a record tells of, unless it names one node too many.
    fn add(
        &mut self,
        head: RecordHead,
        names: RecordNames<'_>,
        extras: Extras,
        line: u32,
    ) -> Result<bool, AllocError>
        requires place { HasPlace self.old }
        requires line { IsNextLine self.old line }
        ensures added { IfOk result (AddsNext self.old
            (with_extras extras (told_by head names.entry.node.now names.entry.message.now (option_map (λ from. from.now) names.entry.from)
            (option_map (λ label. label.now) names.entry.label))) line self.new) }
        ensures marks { KeepMarks self.old self.new }
    {
        let Some(node) = number_node(&mut self.nodes, names.node)? else {
            return Ok(false);
        };
        let kind = number_message(&mut self.messages, head.word, names.message)?;
        let place = EventId(self.log.len());
        let alloc = *self.questions.allocator();
        self.labels.give(alloc, place, names.label)?;
        self.senders
            .give(alloc, place, sender(head.word, names.from, names.message))?;
        self.sent.mark(kind)?;
        self.log.push(LogEvent {
            node,
            reading: head.reading,
            has_reading: head.has_reading,
            kind,
            stamp: head.stamp,
            has_stamp: head.has_stamp,
            carried: extras.carried,
            seq: extras.seq,
            line,
        })?;
        self.line = line;
        self.header.pass();
        Ok(true)
    }

    // Adds the question that a record asks.
    fn ask(&mut self, question: LogQuestion, line: u32) -> Result<(), AllocError>
        requires { IsNextLine self.old line }
        ensures asked { OnOk result (AsksNext self.old (plain_asked question) line self.new) }
        ensures marks { KeepMarks self.old self.new }
    {
        self.questions.push(question)?;
        self.line = line;
        self.header.pass();
        Ok(())
    }

    // Tells the messages without a name apart, if there are such.
    fn tell_apart(&mut self) -> Result<(), AllocError>
        requires { HasFewNames self.old }
        ensures { OnOk result (self.new ≡ record self.old { log = apart_log self.old }) }
    {
        let Some(unnamed) = self.messages.number(b"") else {
            return Ok(());
        };
        let alloc = *self.questions.allocator();
        let senders = nodes_named(alloc, self.nodes.names(), &self.senders, self.log.len())?;
        let (unnamed, messages) = (MessageId(unnamed as u32), self.messages.len() as u32);
        tell_apart(alloc, &mut self.log, unnamed, messages, &senders)
    }

    // Below how many the numbers of messages then are.
    fn message_count(&self) -> usize
        requires { HasFewNames self.now }
        ensures { result ≡ apart_count (unnamed_in self.now.messages) (length self.now.messages) (length self.now.log.events) }
    {
        let messages = self.messages.len();
        if self.messages.number(b"").is_some() {
            messages + self.log.len() as usize
        } else {
            messages
        }
    }

    // Tells the messages without a name apart, and hands the names of the nodes out. With them, nothing that is left to do can fail.
    pub(crate) fn finish(&mut self) -> Result<Names, AllocError>
        requires { HasFewNames self.old }
        ensures { IfOk result (IsFinished self.old self.new) }
    {
        self.tell_apart()?;
        let alloc = *self.questions.allocator();
        let nodes = mem::replace(&mut self.nodes, NodeNames::new(alloc, NameKey::fixed()));
        Ok(nodes.into_names())
    }

    // What was read, with the names of its nodes.
    pub(crate) fn into_text(self, nodes: Names) -> LogText
        requires few { HasFewNames self }
        requires sound { IsSoundText (text_with nodes self) }
        ensures { result ≡ text_with nodes self }
    {
        let count = self.message_count();
        let PartialLog {
            log,
            nodes: _,
            messages,
            labels,
            senders: _,
            questions,
            line: _,
            files,
            header: _,
            skipped,
            left_out,
            sent: _,
        } = self;
        LogText {
            log,
            message_names: messages.into_names(),
            messages: count as u32,
            details: LogDetails {
                files,
                nodes,
                labels,
                questions,
                skipped,
                left_out,
            },
        }
    }

    // The line that is told of the next record: its own, or the one after the line of the record before, if that is greater.
    fn next_line(&self, found: FoundRecord) -> u32
        requires { HasPlace self.now }
        ensures line { result ≡ told_line self.now found.line }
        ensures next { IsNextLine self.now result }
    {
        found.line.max(self.line + 1)
    }
}
