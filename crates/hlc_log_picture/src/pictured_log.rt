ghost use Rattle.std.specs.Prelude.{◌≡◌, ◌<◌, IfOk, length, option_map};
ghost use Rattle.hlc_ordered_log.specs.InOrder.{IsInOrder, line_in};
ghost use Rattle.hlc_log_picture.specs.Drawn.{finding_of_row, label_of_row};
ghost use Rattle.hlc_log_picture.specs.Judged.{AreEventFindings};

use crate::cells::{LEGEND, WHOLE_ROOM, cell_width, put_cell, put_fact, put_heading};
use crate::event_finding::{EventFinding, findings};
use crate::look::look_of;
use crate::places::{put_location, shown_line};
use crate::shared_digits::first_digits;
use hlc_causes::Finding;
use hlc_diagram::{FirstDigits, Look, NAME_ROOM, Subject, View, put_cut_label, put_label};
use hlc_execution::Execution;
use hlc_log_text::{Files, Names, node_name};
use hlc_open_log::OpenLog;
use hlc_ordered_log::OrderedLog;
use hlc_stamp::{EventId, NodeId};
use std::alloc::{AllocError, Global};
use std::marker::Model;

/// What a diagram shows of a log: its events in the order of the log's, each with the line on which its record begins, counted in its file, the stamp that is
/// claimed for it, what its clock read, what is found of the stamp, and its label.
#[derive(Drop)]
pub struct PicturedLog<'a> {
    log: &'a OrderedLog,
    files: &'a Files,
    nodes: &'a Names,
    // It knows the labels.
    opened: &'a OpenLog,
    // By position.
    findings: Vec<EventFinding>,
    // They stand in the headings.
    first: FirstDigits,
}

impl<'a> Model for PicturedLog<'a> {
    ghost use Rattle.hlc_log_picture.specs.Drawn.{ArePictured, DrawnLog};

    ghost Value = { DrawnLog };

    ghost view = { λ p. record { log = p.log.now; files = p.files.now; nodes = p.nodes.now; labels = p.opened.now.labels; findings = p.findings.items } };

    ghost invariant = { λ p. ArePictured
        (record { log = p.log.now; files = p.files.now; nodes = p.nodes.now; labels = p.opened.now.labels; findings = p.findings.items }) p.first };
}

impl<'a> PicturedLog<'a> {
    /// What a diagram shows of an opened log.
    ///
    /// It takes 32 bytes for each event.
    pub fn new(alloc: Global, log: &'a OpenLog) -> Result<PicturedLog<'a>, AllocError>
        ensures log { IfOk result (λ drawn. drawn.log ≡ log.now.log) }
        ensures files { IfOk result (λ drawn. drawn.files ≡ log.now.files) }
        ensures nodes { IfOk result (λ drawn. drawn.nodes ≡ log.now.nodes) }
        ensures labels { IfOk result (λ drawn. drawn.labels ≡ log.now.labels) }
        ensures judged { IfOk result (λ drawn. AreEventFindings log.now.log log.now.full drawn.findings) }
        ensures ordered { IfOk result (λ drawn. IsInOrder drawn.log) }
    {
        let ordered = log.ordered();
        let findings = findings(alloc, ordered, log.full())?;
        Ok(PicturedLog {
            log: ordered,
            files: log.files(),
            nodes: log.nodes(),
            opened: log,
            findings,
            first: first_digits(ordered),
        })
    }

    /// How many events there are.
    pub fn len(&self) -> u32
        ensures value { result ≡ length self.now.log.events }
        ensures ordered { IsInOrder self.now.log }
    {
        self.log.len()
    }

    // The label of an event, if it has one.
    fn label(&self, event: EventId) -> Option<&[u8]>
        requires { event.0 < length self.now.log.events }
        ensures { option_map (λ label. label.now) result ≡ label_of_row self.now event.0 }
    {
        self.opened.label(self.log.place(event))
    }

    // What is found of the stamp that is claimed for an event, if one is.
    fn finding(&self, event: EventId) -> Option<Finding>
        requires { event.0 < length self.now.log.events }
        ensures { result ≡ finding_of_row self.now event.0 }
    {
        self.findings[event.0 as usize].finding
    }
}

impl<'a> PicturedLog<'a> {
    ghost use Rattle.std.specs.Prelude.{IfNone, IfSome};
    ghost use Rattle.hlc_log_picture.specs.Viewed.{HasNoRow, IsRowOn, IsViewAround, IsViewBetween, NamesRow, StandsFor};

    // The line on which the record of an event begins.
    fn line(&self, event: EventId) -> u32
        requires { event.0 < length self.now.log.events }
        ensures { result ≡ line_in self.now.log event.0 }
    {
        self.log.event(event).line
    }

    /// The row of the event whose record begins on a line, if there is one. It goes over the rows.
    pub fn row_on(&self, line: u64) -> Option<EventId>
        ensures found { IfSome result (λ row. IsRowOn self.now line row.0) }
        ensures none { IfNone result (HasNoRow self.now line) }
    {
        for row in 0..self.len() {
            if u64::from(self.line(EventId(row))) == line {
                return Some(EventId(row));
            }
        }
        None
    }

    // The row that a line stands for.
    fn row_or_end(&self, line: u64) -> EventId
        ensures { StandsFor self.now line result.0 }
    {
        match self.row_on(line) {
            Some(row) => row,
            None => EventId(self.len()),
        }
    }

    // The row that a line stands for, if it is named.
    fn named(&self, line: Option<u64>) -> Option<EventId>
        ensures { NamesRow self.now line result }
    {
        match line {
            Some(line) => Some(self.row_or_end(line)),
            None => None,
        }
    }

    /// The view from the event of line `from`, or from the first row, to the event of line `to`, or of as many rows as are drawn at most.
    /// The chain of the event of line `explained` is marked, if one is named. A line without an event stands for the end of the log,
    /// where there is no event.
    pub fn view(&self, from: Option<u64>, to: Option<u64>, explained: Option<u64>) -> View
        ensures { IsViewBetween self.now from to explained result }
    {
        View::between(self.named(from), self.named(to), self.named(explained))
    }

    /// So many rows about the event of a line, as even above and below it as the rows allow, with the chain of another one marked, if it
    /// is named.
    pub fn view_around(&self, line: u64, rows: u32, explained: Option<u64>) -> View
        ensures { IsViewAround self.now line rows explained result }
    {
        View::around(
            self.row_or_end(line),
            rows,
            self.len(),
            self.named(explained),
        )
    }
}

impl<'a> Subject for PicturedLog<'a> {
    ghost use Rattle.hlc_log_picture.specs.Drawn.{content_of};

    ghost content = { λ drawn. content_of drawn };

    fn execution(&self) -> &Execution {
        self.log.execution()
    }

    fn has_every_lane(&self) -> bool {
        false
    }

    #[tactic(auto, using(crate::proofs::Legends::legend_is))]
    fn put_legend(&self, text: &mut String) -> Result<(), AllocError> {
        text.push_str(LEGEND)
    }

    fn put_whole_name(&self, text: &mut String, node: NodeId) -> Result<(), AllocError> {
        put_label(text, node_name(self.nodes, node), WHOLE_ROOM)
    }

    fn put_name(&self, text: &mut String, node: NodeId) -> Result<(), AllocError> {
        put_cut_label(text, node_name(self.nodes, node), NAME_ROOM)
    }

    fn number(&self, event: EventId) -> u32 {
        self.log.event(event).line
    }

    fn shown(&self, event: EventId) -> u32 {
        shown_line(self.files, self.log.event(event).line)
    }

    fn put_event(&self, text: &mut String, event: EventId) -> Result<(), AllocError> {
        put_location(text, self.files, self.log.event(event).line)
    }

    fn is_in_order(&self) -> bool {
        false
    }

    fn look(&self, event: EventId) -> Look {
        look_of(self.findings[event.0 as usize])
    }

    fn columns(&self) -> u8 {
        5
    }

    fn put_heading(&self, text: &mut String, column: u8) -> Result<(), AllocError> {
        put_heading(text, self.first, column)
    }

    fn put_cell(&self, text: &mut String, event: EventId, column: u8) -> Result<(), AllocError> {
        put_cell(
            text,
            self.first,
            self.log.event(event),
            self.finding(event),
            self.label(event),
            column,
        )
    }

    fn cell_width(&self, event: EventId, column: u8) -> u32 {
        cell_width(self.first, self.log.event(event), self.label(event), column)
    }

    fn put_fact(&self, text: &mut String, event: EventId, column: u8) -> Result<(), AllocError> {
        put_fact(
            text,
            self.log.event(event),
            self.finding(event),
            self.label(event),
            column,
        )
    }
}
