//! A history as a picture: the space-time diagram that `hlc_diagram` draws, in SVG. Each event of the history is a dot on the lane
//! of its node with a row beside it, and each delivery an arrow from its send. The chain that forces one event's stamp can be
//! marked.
//!
//! It is for whoever asks why a stamp is so high, or why a write was lost: the marked chain leads from that event back to
//! the clock that was ahead.
//!
//! - `draw` writes the picture of a history.
//! - `draw_with` writes one in which messages are crossed out that didn't arrive.
//! - `draw_chain` writes the picture of a chain alone.
//! - `View` says which events are drawn, and which one is explained.
//! - `PicturedHistory` is what the diagram shows of a history: each event's stamp, what its clock read, and what happened.
//! - `laws` says that the laws of diagrams hold for pictures of histories.
//!
//! A picture doesn't show what a node's table has.
//!
//! A first caller, proved in `hlc_log_examples`: a history, drawn with the chain that forces a stamp.
//!
//! ```rust
//! pub fn draw_chain(alloc: Global, history: &Arena, event: EventId) -> Result<Vec<u8>, DrawFault>
//!     requires { HasLeastStamps history.now.events }
//!     ensures drawn { IfOk result (λ svg.
//!         svg.items ≡ picture_text (drawn (history_of history.now) (view_between None None (Some event)))) }
//!     ensures exists { OnOk result (event.0 < length history.now.events) }
//! {
//!     let view = View::between(None, None, Some(event));
//!     let mut svg = Vec::new(alloc);
//!     draw(alloc, history, view, &mut svg)?;
//!     Ok(svg)
//! }
//! ```
#![tactic(auto)]

mod drawing;
pub mod laws;
mod pictured_history;
mod what;

pub use drawing::{draw, draw_chain, draw_with, is_missing};
pub use hlc_diagram::{DrawFault, MOST_EVENTS, Undelivered, View};
pub use pictured_history::PicturedHistory;
