//! First callers of the base, of the store with its scripts and threads, and of `hlc_trace`, each with a contract that says what it shows. The
//! docs of those crates show them.
#![tactic(auto)]

mod acting_nodes;
mod clocks;
mod counted_lines;
mod exported_runs;
mod first_numbers;
mod forced_pairs;
mod honest_traces;
mod judged_logs;
mod kept_keys;
mod late_writes;
mod logged_messages;
mod lost_messages;
mod packed_messages;
mod past_events;
mod planned_steps;
mod question_answers;
mod rebuilt_tables;
mod recorded_writes;
mod replicas;
mod reported_writes;
mod seat_reads;
mod seeded_storms;
mod shared_writes;
mod stamp_chains;

pub use acting_nodes::acting_node;
pub use clocks::pass_message;
pub use counted_lines::{LineCount, count_lines};
pub use exported_runs::run_and_export;
pub use first_numbers::first_number;
pub use forced_pairs::no_clock_gives_less;
pub use honest_traces::keeps_causality;
pub use judged_logs::judge_log;
pub use kept_keys::keep_key;
pub use late_writes::learn_late_write;
pub use logged_messages::keep_message;
pub use lost_messages::lose_first_message;
pub use packed_messages::pass_packed;
pub use past_events::is_past;
pub use planned_steps::plan_step;
pub use question_answers::answer_question;
pub use rebuilt_tables::rebuild_table;
pub use recorded_writes::record_write;
pub use replicas::share_colour;
pub use reported_writes::wrote_only;
pub use seat_reads::write_and_read;
pub use seeded_storms::make_storm;
pub use shared_writes::write_at_both;
pub use stamp_chains::explain_stamp;
