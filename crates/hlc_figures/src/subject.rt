use hlc_execution::Execution;
use hlc_stamp::{EventId, NodeId};
use hlc_svg::look::Look;
use std::alloc::AllocError;

/// What a diagram shows: an execution with least stamps, whatever the rules of its clocks, and what is said of its nodes and events.
///
/// All text is put into the picture as it is, so it has to be escaped as XML wants it: `put_label` does that. A name has room
/// for `NAME_ROOM` characters, to which `put_cut_label` cuts it, a heading for as many as a cell of its column, and for `LEAST_WIDTH` at least.
pub trait Subject {
    ghost use Rattle.std.specs.Prelude.{◌≡◌, ◌++◌, ◌<◌, OnOk, length, string_bytes};
    ghost use Rattle.hlc_figures.specs.Content.{Content, clock_events_of};
    ghost use Rattle.hlc_execution.specs.Execution.{clock_of};

    ghost content: { Self → Content };

    /// The events.
    fn execution(&self) -> &Execution
        ensures clocks { clock_of result.now ≡ clock_events_of (content self.now) }
        ensures nodes { result.now.nodes ≡ (content self.now).nodes }
        ensures events { result.now.events ≡ (content self.now).events }
        ensures stamps { result.now.stamps ≡ (content self.now).stamps };

    /// Whether each node has a lane. If not, those have one of which an event is drawn.
    fn has_every_lane(&self) -> bool
        ensures { result ≡ (content self.now).every_lane };

    /// What the description says of the columns and of the looks of dots.
    fn put_legend(&self, text: &mut String) -> Result<(), AllocError>
        ensures { OnOk result (string_bytes text.new ≡ string_bytes text.old ++ (content self.now).legend) };

    /// The whole name of a node.
    fn put_whole_name(&self, text: &mut String, node: NodeId) -> Result<(), AllocError>
        requires { node.0 < (content self.now).nodes }
        ensures { OnOk result (string_bytes text.new ≡ string_bytes text.old ++ (content self.now).whole_name node.0) };

    /// As much of it as stands above its lane, where there is room for `NAME_ROOM` characters.
    fn put_name(&self, text: &mut String, node: NodeId) -> Result<(), AllocError>
        requires { node.0 < (content self.now).nodes }
        ensures { OnOk result (string_bytes text.new ≡ string_bytes text.old ++ (content self.now).name node.0) };

    /// The number by which an event is known in a picture. No two events have the same.
    fn number(&self, event: EventId) -> u32
        requires { event.0 < length (content self.now).events }
        ensures { result ≡ (content self.now).number event.0 };

    /// The number that is shown of an event, in which several may agree.
    fn shown(&self, event: EventId) -> u32
        requires { event.0 < length (content self.now).events }
        ensures { result ≡ (content self.now).shown event.0 };

    /// How a title or a caption names an event.
    fn put_event(&self, text: &mut String, event: EventId) -> Result<(), AllocError>
        requires { event.0 < length (content self.now).events }
        ensures { OnOk result (string_bytes text.new ≡ string_bytes text.old ++ (content self.now).event event.0) };

    /// Whether events stand in the order of their numbers. If they don't, captions count rows.
    fn is_in_order(&self) -> bool
        ensures { result ≡ (content self.now).in_order };

    /// How the dot of an event looks.
    fn look(&self, event: EventId) -> Look
        requires { event.0 < length (content self.now).events }
        ensures { result ≡ (content self.now).look event.0 };

    /// How many columns of cells there are.
    fn columns(&self) -> u8
        ensures { result ≡ (content self.now).columns };

    /// The heading of a column.
    fn put_heading(&self, text: &mut String, column: u8) -> Result<(), AllocError>
        requires { column < (content self.now).columns }
        ensures { OnOk result (string_bytes text.new ≡ string_bytes text.old ++ (content self.now).heading column) };

    /// The cell of an event in a column.
    fn put_cell(&self, text: &mut String, event: EventId, column: u8) -> Result<(), AllocError>
        requires exists { event.0 < length (content self.now).events }
        requires column { column < (content self.now).columns }
        ensures { OnOk result (string_bytes text.new ≡ string_bytes text.old ++ (content self.now).cell event.0 column) };

    /// How many characters of it are seen, or may be at most.
    fn cell_width(&self, event: EventId, column: u8) -> u32
        requires exists { event.0 < length (content self.now).events }
        requires column { column < (content self.now).columns }
        ensures { result ≡ (content self.now).cell_width event.0 column };

    /// What the title of its dot tells of that column: the heading, and the cell in full.
    fn put_fact(&self, text: &mut String, event: EventId, column: u8) -> Result<(), AllocError>
        requires exists { event.0 < length (content self.now).events }
        requires column { column < (content self.now).columns }
        ensures { OnOk result (string_bytes text.new ≡ string_bytes text.old ++ (content self.now).fact event.0 column) };
}
