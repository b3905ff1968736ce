//! The audit of another system's log, from CSV to CSV: a report on it, and answers to questions about it.
//!
//! A report says how many of the log's stamps have each verdict, which events broke the clock rule, how far the stamps of the nodes ran ahead
//! and why, how many messages there are, and what they show of the clocks. Answers say what forces a stamp, how events are related, and where a
//! claimed stamp came from.
//!
//! `audit_run` reads a log and writes the report on it, and answers whether it is `Sound`, `Broken`, `OverLimit` or a `BadLog`, and how many events
//! it has. If the log asks questions,
//! or its reader asks some beside it, the rows that answer them come in place of the report, or after it if `AuditRules` say so. Nodes have
//! their names in these rows, and events the lines on which their records begin, so that the reader of a log finds them again.
//!
//! The rows of a report:
//!
//! - `count,VERDICT,N`: how many stamps have a verdict, if there are some.
//! - `cause,LINE,NODE,HOW`: an event that broke the rule, in the order of the lines. HOW is `behind`, `not-above` with the line
//!   of the direct predecessor, or `ahead` with the stamp that the rule gives; or it is `carried`, with the line of the send whose message
//!   carried another stamp than the log claims there. Behind the line of the node's own event before it stands `swapped`, if each of the two
//!   would keep the rule in the place of the other.
//! - `node,NODE,EVENTS,AHEAD,LINE,ORIGIN`: how many events a node has, its drift by the least stamps among those whose reading is told, the
//!   line of the first event that has it, and that of its origin. A node of which no reading is told has `none` in place of these three.
//! - `messages,SENT,RECEIVED,REPEATED,UNRECEIVED`: the counts of `MessageCounts`.
//! - `skew,FROM,TO,AHEAD,SEND,RECEIVE`: how far the clock of one node is ahead of another's by the messages between them, with
//!   its sign, and the lines of the message that shows it.
//! - `unsent,N`: how many receives of messages that nobody sends were taken as local events, if `LogRules` say so.
//! - `resent,N`: how many sends sent a message that an earlier one sent, if `LogRules` say which of them a receive is of.
//! - `outside,N`: how many receives of such messages tell what these carried, if some do: they came in from outside of the log.
//! - `unread,N`: how many events have no reading, if there are some.
//! - `unstamped,N`: how many receives have no stamp, if there are some. Each has the one that the clock rule gives it, and no verdict.
//! - `skipped,N,LINE`: how many records were left out of the log, and the line of the first, if there are some.
//! - `left-out,WORD,N,LINE`: how many bad records were left out for a reason of this word, and the line of the first, if there are some.
//! - `over,NODE,N,LINE,AHEAD,ORIGIN`: how many events of a node claim an `l` that is above their told reading by more than the limit, if
//!   there is one and there are some; the line of the first of them; the greatest such difference; and the line where that `l` came in.
//!
//! The row of an answer, by what is asked:
//!
//! - `chain,LINE,L,C,LINE..`: the least stamp of the event, and the events of its chain, the origin first.
//! - `check,LINE,yes` or `no`: whether the other lines that were asked about are a chain for it.
//! - `relation,LINE,LINE,HOW`: `before`, `after`, `same` or `concurrent`.
//! - `influenced,LINE,LINE..`: all events that the event happened before, rising by their lines.
//! - `path,LINE,LINE,LINE..`: a shortest path from one event to another, each a direct predecessor of the next, both ends among them; or
//!   `path,LINE,LINE,none` if there is none.
//! - `tainted,LINE,LINE..`: all events whose least stamp is higher for the floor of the event, rising by their lines.
//! - `drift,NODE,AHEAD,LINE,ORIGIN`, or `drift,NODE,none` for a node of which no reading is told.
//! - `claimed,LINE,L,C,LINE..`: the claimed stamp, and the way of its `l`.
//! - `event,LINE,NODE,READING,L,C,LEAST_L,LEAST_C,VERDICT[,LABEL]`: what is known of the event. A receive without a stamp has the one that it
//!   was given, and `unstamped` in place of a verdict.
//! - `first,NODE,RULE,LINE`: the first event of the node, in its own order, that breaks the rule which `cause` rows tell by this word; or
//!   `first,NODE,RULE,none`.
//! - `refused,no-event` or `refused,no-node`, if the log has no such event or node.
//!
//! Text that is not a log is answered by the one row `bad,LINE,WHY`, which names a column besides if one is missing or badly written.
//!
//! Of an opened log (`hlc_open_log`) `push_report` adds the rows of the report, and `push_answer` the one row that answers a question
//! (`hlc_log_text::LogQuestion`), and `audit_opened` all rows that `audit_run` writes; of one that couldn't be opened `audit_unopened` does.
//! `claimed_way` is the way that the `l` of a claimed stamp came, event by event.
//!
//! But for that way it finds nothing itself: `hlc_open_log` reads, and `hlc_ordered_log`, `hlc_causes` and `hlc_explain` find.
//!
//! `laws` says that an audit is a function of its log, what it leaves if all stamps are the least ones, that a log has one answer to each
//! question, and that drifts, paths, the ways of claimed stamps, and what a floor raised don't depend on the order in which it tells of its events.
//!
//! A first caller, proved in `hlc_log_examples`: what the audit of a log in memory finds, and its rows.
//!
//! ```rust
//! pub fn audit_log(
//!     alloc: Global,
//!     log: &[u8],
//!     rules: AuditRules,
//! ) -> Result<(Outcome, Vec<u8>), RecordsFault>
//!     ensures { IfOk result (λ audited. IsAudited rules MAX_CAPACITY [] (Some log.now) (Some []) (Some audited.1.items) audited.0) }
//! {
//!     let mut rows = Vec::new(alloc);
//!     let audited = audit_run(alloc, log, &mut rows, rules, &[], NameKey::fixed())?;
//!     Ok((audited.outcome, rows))
//! }
//! ```
//!
//! Another: the text of the row that answers a question.
//!
//! ```rust
//! pub fn answer_text(
//!     alloc: Global,
//!     log: &OpenLog,
//!     question: &LogQuestion,
//! ) -> Result<Vec<u8>, OutputFault>
//!     ensures { IfOk result (λ text. (row : Fields)
//!         × IsAnswer log.now.files log.now.nodes log.now.labels log.now.log log.now.full (plain_asked question.now) row
//!         × (text.items ≡ text_of_row row)) }
//! {
//!     let mut text = Vec::new(alloc);
//!     let mut rows = RowBuffer::new(alloc);
//!     push_answer(alloc, &mut rows, log, question, &mut text)?;
//!     rows.finish(&mut text)?;
//!     Ok(text)
//! }
//! ```
#![tactic(auto)]

mod answer;
mod answer_row;
mod audit;
mod audited;
mod causes;
mod claimed;
mod claimed_ahead;
mod counts;
mod drift;
mod event_answer;
mod first_to_break;
mod known;
pub mod laws;
mod left_out;
mod lines;
mod messages;
mod nodes;
mod outcome;
mod over;
mod overs;
mod report;
mod rules;
mod skews;
mod soundness;
mod tally;
mod units;
mod words;

pub use answer::push_answer;
pub use audit::{audit_opened, audit_run, audit_unopened};
pub use audited::Audited;
pub use claimed::claimed_way;
pub use hlc_csv::RecordsFault;
pub use outcome::Outcome;
pub use report::push_report;
pub use rules::AuditRules;
