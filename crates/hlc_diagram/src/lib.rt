//! Space-time diagrams in SVG, of the events of any system: time runs down, and nodes have lanes. Each event is a dot on its node's
//! lane with a row beside it, and each delivery an arrow from its send. The chain that forces one event's stamp can be
//! marked.
//!
//! It is for whoever asks why a stamp is so high, or why a write was lost: the marked chain leads from that event back to
//! the clock that was ahead.
//!
//! - `Subject` says what is shown: an execution, and beside it the names of nodes, the numbers of events, their cells and looks.
//! - `draw` writes the picture of a subject.
//! - `draw_with` writes one in which messages are crossed out that didn't arrive.
//! - `draw_chain` writes the picture of a chain alone.
//! - `View` says which events are drawn, and which one is explained.
//! - `put_label` escapes text for a picture, and `put_cut_label` cuts a name to `NAME_ROOM` in the middle; `put_number` and `put_stamp` add numbers and stamps as rows show them.
//! - `FirstDigits` are digits that the numbers of a column share, which stand in its heading alone.
//! - `laws` has the theorems: one dot for each event, one arrow for each delivery, one cross for each message that didn't arrive,
//!   no arrow through a dot, and no markup from a label.
//!
//! A dot can be pointed at, and tells what is known of its event. It has no script, and shows no table of a node. `hlc_picture`
//! draws histories.
//!
//! A first caller, proved in `hlc_log_examples`: a subject, drawn with the chain that forces a stamp.
//!
//! ```rust
//! pub fn draw_subject<S: Subject>(
//!     alloc: Global,
//!     subject: &S,
//!     event: EventId,
//! ) -> Result<Vec<u8>, DrawFault>
//!     requires { IsLeastFeasible (clock_events_of (S.content subject.now)) (S.content subject.now).stamps }
//!     ensures drawn { IfOk result (λ svg.
//!         svg.items ≡ picture_text (picture_of (S.content subject.now) (view_between None None (Some event)))) }
//!     ensures exists { OnOk result (event.0 < length (S.content subject.now).events) }
//! {
//!     let view = View::between(None, None, Some(event));
//!     let mut svg = Vec::new(alloc);
//!     hlc_diagram::draw(alloc, subject, view, &mut svg)?;
//!     Ok(svg)
//! }
//! ```
#![tactic(auto)]

mod chain_drawing;
mod cross;
mod draw_fault;
mod drawing;
mod failed;
pub mod laws;
mod layout;
mod marks;
mod undelivered;
mod view;

pub use chain_drawing::draw_chain;
pub use draw_fault::DrawFault;
pub use drawing::{draw, draw_with, is_missing};
pub use hlc_figures::columns::LEAST_WIDTH;
pub use hlc_figures::subject::Subject;
pub use hlc_svg::cut_label::put_cut_label;
pub use hlc_svg::frame::NAME_ROOM;
pub use hlc_svg::label::{label_width, put_label};
pub use hlc_svg::look::{Form, Look};
pub use hlc_svg::numbers::{
    FirstDigits, digits, first_width, number_width, put_first, put_number, put_stamp, stamp_width,
};
pub use undelivered::Undelivered;
pub use view::{MOST_EVENTS, View};
