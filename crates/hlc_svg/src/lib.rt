//! What a space-time diagram is made of, as SVG: shapes, where they stand, and text that is made safe. It knows no execution and no history:
//! `hlc_figures` says what is drawn of an event, and `hlc_diagram` draws whole pictures.
//!
//! - `frame` says where the lanes and the rows stand; `route` how an arrow runs between two dots, and keeps clear of all others.
//! - `shapes`, `dot` and `arrow` have the shapes with their text, `look` how a dot looks, and `pieces` adds those that are there.
//! - `label` escapes bytes for a picture, and `cut_label` cuts a name in the middle; `numbers` adds numbers and stamps as rows show them.
//! - `laws` has theorems: no markup comes from a label, and each of its letters is seen and stands alone; shapes have room.
#![tactic(auto)]

pub mod arrow;
pub mod cut_label;
pub mod dot;
pub mod frame;
pub mod label;
pub mod laws;
mod letters;
pub mod look;
pub mod numbers;
pub mod pieces;
pub mod route;
pub mod shapes;
pub mod text;
