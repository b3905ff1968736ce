ghost use Rattle.std.specs.Prelude.{◌≡◌, ◌<◌, length};
ghost use Rattle.hlc_arena.specs.History.{event_at, stamp_at};

use crate::what::{WIDTH, put_what};
use hlc_arena::Arena;
use hlc_diagram::{FirstDigits, Form, Look, Subject, digits, put_stamp, stamp_width};
use hlc_execution::Execution;
use hlc_stamp::{EventId, NodeId, Stamp};
use std::alloc::AllocError;

// What its rows have.
pub(crate) const LEGEND: &str =
    "A row has the stamp of its event, what the clock read, and what happened.";

/// What a diagram shows of a history: beside each event its stamp, what its clock read, and what happened.
#[derive(Clone, Copy)]
pub struct PicturedHistory<'a> {
    pub history: &'a Arena,
}

// The stamp of an event.
fn stamp(history: &Arena, event: EventId) -> Stamp
    requires { event.0 < length history.now.events }
    ensures { result ≡ stamp_at history.now.events event.0 }
{
    history.get(event).unwrap().stamp
}

// What its clock read.
fn reading(history: &Arena, event: EventId) -> u64
    requires { event.0 < length history.now.events }
    ensures { result ≡ (event_at history.now.events event.0).reading }
{
    history.get(event).unwrap().reading
}

impl<'a> Subject for PicturedHistory<'a> {
    ghost use Rattle.hlc_arena.specs.Arena.{history_of};
    ghost use Rattle.hlc_picture.specs.Drawn.{content_of};

    ghost content = { λ pictured. content_of (history_of pictured.history.now) };

    fn execution(&self) -> &Execution {
        self.history.execution()
    }

    fn has_every_lane(&self) -> bool {
        true
    }

    fn put_legend(&self, text: &mut String) -> Result<(), AllocError> {
        text.push_str(LEGEND)
    }

    fn put_whole_name(&self, text: &mut String, node: NodeId) -> Result<(), AllocError> {
        write!(text, "node {}", node.0)
    }

    fn put_name(&self, text: &mut String, node: NodeId) -> Result<(), AllocError> {
        self.put_whole_name(text, node)
    }

    fn number(&self, event: EventId) -> u32 {
        event.0
    }

    fn shown(&self, event: EventId) -> u32 {
        event.0
    }

    fn put_event(&self, text: &mut String, event: EventId) -> Result<(), AllocError> {
        write!(text, "{}", event.0)
    }

    fn is_in_order(&self) -> bool {
        true
    }

    fn look(&self, _event: EventId) -> Look {
        Look {
            form: Form::Pill,
            is_ringed: false,
        }
    }

    fn columns(&self) -> u8 {
        3
    }

    fn put_heading(&self, text: &mut String, column: u8) -> Result<(), AllocError> {
        text.push_str(match column {
            0 => "stamp",
            1 => "clock",
            _ => "event",
        })
    }

    fn put_cell(&self, text: &mut String, event: EventId, column: u8) -> Result<(), AllocError> {
        self.history.keeps_a_well_formed_history();
        match column {
            0 => put_stamp(text, stamp(self.history, event), FirstDigits::none()),
            1 => {
                let reading = reading(self.history, event);
                write!(text, "{reading}")
            }
            _ => put_what(text, self.history, event),
        }
    }

    fn cell_width(&self, event: EventId, column: u8) -> u32 {
        match column {
            0 => stamp_width(stamp(self.history, event), FirstDigits::none()),
            1 => digits(reading(self.history, event)),
            _ => WIDTH,
        }
    }

    fn put_fact(&self, text: &mut String, event: EventId, column: u8) -> Result<(), AllocError> {
        self.put_heading(text, column)?;
        text.push_str(": ")?;
        self.put_cell(text, event, column)
    }
}
