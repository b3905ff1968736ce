//! What a space-time diagram draws in a row, and its text: the figure of an event (its dot, its title, its row, and what leads there), or how
//! many events lie between two of a chain; and the head of a picture with its caption. `hlc_svg` has the shapes, and `hlc_diagram` draws whole pictures.
//!
//! - `subject::Subject` says what is shown: an execution, and beside it the names of nodes, the numbers of events, their cells and looks.
//! - `scene::Scene` says what of it is drawn, and where.
//! - `lanes` are the nodes that have a lane: those of the events that are drawn, or all.
//! - `rows` are those of a picture, one for each event of a range or those of a chain, which `chain_rows` makes.
//! - `layer` adds what a layer has of a row, and `figure_text` the lane of a node.
//! - `columns` says where the cells beside the lanes begin.
//! - `laws` has a theorem: dots of any number have room on the first lane, and so have arrows on its left.
//! - `head` adds what stands before the lanes, with the caption of `caption`.
#![tactic(auto)]

pub mod caption;
mod chain_figure;
pub mod chain_rows;
pub mod columns;
mod figure;
pub mod figure_text;
pub mod head;
pub mod kept;
pub mod lanes;
pub mod laws;
pub mod layer;
mod row;
pub mod rows;
pub mod scene;
pub mod standing;
pub mod subject;
mod title;
