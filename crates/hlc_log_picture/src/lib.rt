//! The log of another system as a picture: the space-time diagram that `hlc_diagram` draws, in SVG. Each event of the log is a dot on the
//! lane of its node, which has the node's name, with a row beside it; and each receive is an arrow from its send. The form and the colour
//! of a dot tell what is found of the stamp that the log claims, and a ring marks a cause: an event at which the clock
//! rule was broken, or whose message carried another stamp than its send claims.
//!
//! It is for whoever has a log that `hlc audit` finds broken, and wants to see what led there.
//!
//! - `PicturedLog` is what the diagram shows of an opened log (`hlc_open_log`), with the names of its nodes and its labels.
//! - `draw` writes the picture, or a part of it; `draw_chain` that of a chain alone.
//! - `EventFinding` is what the picture tells of a claimed stamp; `form_of` says which form a dot has for it.
//! - `put_in_row_order` puts a log in the order of the rows: where receives tick that of `put_in_stamp_order`, its least stamps and then
//!   its nodes, of which there is only one.
//! - `laws` says that forms are verdicts, that rings are causes, that no digit is lost, and that the laws of diagrams hold.
//!
//! Stamps and readings of 19 digits hide that a clock is ahead. So the first digits that the `l` of all claimed stamps and all readings
//! share stand in the headings, and the rows show the rest. These digits are those of the whole log even if only a part is drawn, so that
//! two parts can be compared.
//!
//! `write_log_vectors` writes the log for tools that draw logs themselves, as ShiViz. These draw what happened before what, and read it from
//! vectors alone, which a log of hybrid logical clocks doesn't have: they are counted from its messages. Of each event there are two lines: its
//! node with its vector, and a row that says what the log tells of it.
//!
//! Events are named by the lines on which their records begin, as in the answers of an audit: `NAME:LINE` in the titles of a log of several files, of
//! which a dot shows the LINE. It reads no log.
//!
//! A first caller, proved in `hlc_log_examples`: the picture of a log.
//!
//! ```rust
//! pub fn draw_log(alloc: Global, log: &mut OpenLog) -> Result<Vec<u8>, DrawFault>
//!     ensures { IfOk result (λ svg. (drawn : DrawnLog) × (drawn.log.events ≡ log.old.log.events)
//!         × (log.old.log.receives ≡ Receives.Tick → IsInStampOrder drawn.log)
//!         × (svg.items ≡ picture_text (drawn_log drawn (view_between None None None)))) }
//! {
//!     put_in_row_order(alloc, log)?;
//!     let pictured = PicturedLog::new(alloc, log)?;
//!     let mut svg = Vec::new(alloc);
//!     draw(alloc, &pictured, View::between(None, None, None), &mut svg)?;
//!     Ok(svg)
//! }
//! ```
//!
//! Another: the vectors of a log in memory.
//!
//! ```rust
//! pub fn vectors_of(alloc: Global, log: &OpenLog) -> Result<Vec<u8>, OutputFault>
//!     ensures { IfOk result (λ text. text.items ≡ log_vector_text log.now) }
//! {
//!     let mut text = Vec::new(alloc);
//!     write_log_vectors(alloc, log, &mut text)?;
//!     Ok(text)
//! }
//! ```
#![tactic(auto)]

mod cells;
mod drawing;
mod event_finding;
mod event_row;
pub mod laws;
mod look;
mod node_names;
mod pictured_log;
mod places;
mod shared_digits;
mod stamp_order;
mod vector_log;

pub use drawing::{draw, draw_chain};
pub use event_finding::EventFinding;
pub use hlc_diagram::{DrawFault, MOST_EVENTS, View};
pub use look::form_of;
pub use pictured_log::PicturedLog;
pub use stamp_order::{put_in_row_order, put_in_stamp_order};
pub use vector_log::write_log_vectors;
