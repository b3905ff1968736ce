//! First callers of the auditor of logs that others wrote, of the crates that draw, and of the command line and the program, each with a
//! contract that says what it shows. The docs of those crates show them.
#![tactic(auto)]

mod answered_questions;
mod audited_logs;
mod chain_pictures;
mod counted_events;
mod counted_messages;
mod drawn_logs;
mod first_causes;
mod history_logs;
pub mod laws;
mod log_vectors;
mod ordered_messages;
mod packed_fields;
mod performed_arguments;
mod read_lines;
mod run_settings;
mod watched_events;

pub use answered_questions::answer_text;
pub use audited_logs::audit_log;
pub use chain_pictures::{draw_chain, draw_subject};
pub use counted_events::count_events;
pub use counted_messages::messages_of;
pub use drawn_logs::draw_log;
pub use first_causes::first_cause;
pub use history_logs::log_of;
pub use log_vectors::vectors_of;
pub use ordered_messages::order_message;
pub use packed_fields::stamp_of_field;
pub use performed_arguments::perform_arguments;
pub use read_lines::records_of;
pub use run_settings::asked_settings;
pub use watched_events::watch_event;
