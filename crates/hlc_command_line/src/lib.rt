//! The command line of `hlc`: from arguments to an order, or to what is wrong with them.
//!
//! Each subcommand has a rule with a table of its options, by which `clap` reads the arguments and makes the help. An order's
//! numbers are within their limits, so whoever carries it out needn't test them again.
//!
//! - `order` reads the arguments.
//! - `Order` is what they ask for, one variant for each subcommand; `AuditOptions` is what `audit` is given, beside what it is asked
//!   (`AskedBeside`), `WatchOptions` what `watch` is, and `DrawLogOptions` what `draw-log` is, with how lines of JSON are read, if the log has them. `DrawnPart` says what of a history or a log is drawn, whatever
//!   names its events: of a history they are named by their numbers, of a log by their lines (`LogLine`).
//! - `LineFault` is a mistake in the arguments, or a text that they ask for, such as the help.
//! - `hint_for` says what else the user is told of arguments that are refused: a range of numbers, or where a log is read from.
//! - `add_fields`, `add_kinds` and `questions` read the texts of options that may be given more than once, also for a caller who has them from elsewhere.
//!
//! - `CommandFault` is why a command stopped, whichever crate carries it out; `NoEvents` is the note on a command that didn't stop, and had no
//!   event to tell of. `hlc_cli` turns a fault into an exit status.
//!
//! It carries nothing out and prints nothing: `hlc_cli` hands the order to the crates of commands.
//!
//! A first caller, proved in `hlc_log_examples`: the settings that a command line asks for.
//!
//! ```rust
//! pub fn asked_settings(alloc: Global, arguments: &[&str]) -> Result<Option<Settings>, LineFault>
//!     ensures asked { IfOk result (λ found. IfSome found (λ settings.
//!         IsOrderFound (subcommand_of line_app (texts arguments.now)) (Order.Run settings))) }
//!     ensures other { IfOk result (λ found. IfNone found ((settings : Settings)
//!         → ¬ IsOrderFound (subcommand_of line_app (texts arguments.now)) (Order.Run settings))) }
//!     ensures accepted { IfOk result (λ found. IfSome found (λ settings. new_refusal settings.nodes settings.capacity ≡ None)) }
//! {
//!     match order(alloc, arguments)? {
//!         Order::Run(settings) => Ok(Some(settings)),
//!         _ => Ok(None),
//!     }
//! }
//! ```
#![tactic(auto)]

mod asked;
mod cluster_options;
mod command_fault;
mod drawn_part;
mod fault_option;
mod help;
mod hint;
mod history_options;
mod json_options;
mod line;
mod line_command;
mod line_fault;
mod line_order;
mod log_line;
mod log_options;
mod log_part;
mod no_events;
mod number_signs;
mod option_rule;
mod option_value;
mod part_options;
mod resent_option;
mod subcommand_rule;
mod unit_options;
mod watch_options;

pub use asked::questions;
pub use command_fault::CommandFault;
pub use drawn_part::{DrawnPart, DrawnRows, USUAL_ROWS};
pub use hint::{Hint, hint_for, sign_hint};
pub use json_options::{add_fields, add_kinds};
pub use line::order;
pub use line_fault::{LineFault, PartMistake, RecordsMistake};
pub use line_order::{
    AskedBeside, AuditOptions, DrawLogOptions, LogLine, Order, OutputForm, USUAL_KEPT, WatchOptions,
};
pub use no_events::NoEvents;
