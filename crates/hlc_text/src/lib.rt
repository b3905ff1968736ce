//! Scripts: what their records ask for, what a cluster answers, and whole scripts run from text to text.
//!
//! This is `hlc run` as a library. A script is a CSV file; the words and fields of its records are in docs/FORMATS.md. Each record is a
//! statement: a node acts, a message is lost, or a question is asked. Records are answered in turn, and a refused one changes nothing. A
//! history can be written as a script again, which leaves an equal history when it is run.
//!
//! Whole scripts:
//!
//! - `run` answers a script, and gives its `Counts` and its history.
//! - `run_noting` also gives the messages that the script lost, or whose delivery it saw refused for a drift limit, as `Undelivered`.
//! - `export` writes a history as a script.
//! - `print_steps` writes lists of steps as a script.
//! - `TextFault` says why a run stopped.
//! - `laws` has the theorems: runs follow the step of the store, and exports run to equal histories.
//!
//! The cluster is gone when the run ends: what remains is its history.
//!
//! Single records, and questions about a cluster:
//!
//! - `Statement::parse` reads a record, and says what is wrong with one that is no statement.
//! - `Question` is what a record can ask of a cluster, and `reply_to` answers it with a `Reply`.
//! - `Reply::push` writes a reply's rows. Until then a reply is a value, which stands for one row or more. What it says is given by the
//!   definitions of entries, tables, chains, happened-before, paths, drift and snapshots, and not by the code that finds it.
//!
//! A first caller, proved in `hlc_examples`: what a script leaves, and a script that leaves the same history.
//!
//! ```rust
//! pub fn run_and_export(
//!     alloc: Global,
//!     script: &[u8],
//!     settings: Settings,
//!     answers: &mut Vec<u8>,
//! ) -> Result<(Ran, Vec<u8>), TextFault>
//!     ensures ran { IfOk result (λ left. Finished MAX_RECORDS settings (Some script.now) (Some answers.old.items) (Some answers.new.items) left.0) }
//!     ensures exported { IfOk result (λ left. left.1.items ≡ export_text left.0.history.events) }
//!     ensures replays { IfOk result (λ left. RunsToEqualHistory (history_of left.0.history) settings) }
//! {
//!     let ran = run(alloc, script, answers, settings)?;
//!     let mut exported = Vec::new(alloc);
//!     export(alloc, &ran.history, &mut exported)?;
//!     exports_run_to_equal_histories();
//!     Ok((ran, exported))
//! }
//! ```
//!
//! Another: the node that a record asks to act.
//!
//! ```rust
//! pub fn acting_node(alloc: Global, fields: &ByteRecord) -> Result<Option<NodeId>, AllocError>
//!     ensures { IfOk result (λ found. (node : ℕ) → (option_map (λ n. n.0) found ≡ Some node)
//!         ↔ ((reading : ℕ) × (request : Request) × (statement_of (fields_of fields.now) ≡ Ok (Act node reading request)))) }
//! {
//!     match Statement::parse(alloc, fields)? {
//!         Ok(Statement::Act { node, .. }) => Ok(Some(node)),
//!         Ok(Statement::Lose { .. } | Statement::Ask(_)) | Err(_) => Ok(None),
//!     }
//! }
//! ```
//!
//! A third: a question about a cluster, answered as text.
//!
//! ```rust
//! pub fn answer_question(
//!     alloc: Global,
//!     cluster: &Cluster,
//!     question: Question<'_>,
//! ) -> Result<Vec<u8>, OutputFault>
//!     ensures { IfOk result (λ text. text.items ≡ text_of (rows_for cluster.now (plain_question question.entry))) }
//! {
//!     let reply = reply_to(question, alloc, cluster)?;
//!     let mut text = Vec::new(alloc);
//!     let mut rows = RowBuffer::new(alloc);
//!     reply.push(&mut rows, &mut text)?;
//!     rows.finish(&mut text)?;
//!     Ok(text)
//! }
//! ```
#![tactic(auto)]

mod answers;
mod change;
mod counts;
mod event_number;
mod history;
pub mod laws;
mod number_row;
mod question;
mod question_reply;
mod ran;
mod refused;
mod reply;
mod request_row;
mod script;
mod session;
mod statement;
mod steps;
mod text_fault;
mod undelivered;
mod word;

pub use counts::Counts;
pub use event_number::EventNumber;
pub use history::export;
pub use hlc_csv::{OutputFault, RecordsFault};
pub use hlc_stamp::Settings;
pub use number_row::NumberRow;
pub use question::Question;
pub use question_reply::reply_to;
pub use ran::Ran;
pub use reply::Reply;
pub use script::{run, run_noting};
pub use statement::Statement;
pub use steps::print_steps;
pub use text_fault::TextFault;
pub use undelivered::Undelivered;
