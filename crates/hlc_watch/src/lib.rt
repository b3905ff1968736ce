//! Which rules the events of a log break, told as its lines come.
//!
//! Causes are local: what an event breaks is told by its own record, that of the event before it at its node, and that of the send of what it
//! receives. So they are known as soon as the last of these three has come, whatever else the log tells, and in whatever order the lines of
//! different nodes come.
//!
//! - `Watch` keeps what is needed for that. `event` takes the next event and the name of its message, and gives the `Records` of those that are
//!   `Complete` now: of the event, and of receives that came before it and waited for it. A receive whose send hasn't come waits. The caller has the
//!   place for these, since they are large and one place serves for all events.
//! - `Records::causes` says which rules an event breaks: its `LineCauses`, which name other events by their lines.
//! - A `RuledEvent` is an event of a log (`hlc_log`) as a clock rule reads it; `new` makes one. A log may be put together of several files, so a
//!   `FileLine` is a line of one of them.
//! - Only so many messages are remembered, those that were sent last, and as many receives wait. A receive of a message that is forgotten waits
//!   until it is forgotten, too: `waiting` and `forgotten` count those that have no causes.
//! - `laws` says that the causes are those that the events break in any causal order of the log, that none is missing where nothing is forgotten, and
//!   that the messages which were sent last are remembered; that each event is told, or waits, or is forgotten; and that the memory is bounded, however
//!   long it runs.
//!
//! It reads no text and looks for no causal order, so it doesn't know whether there is one. A message that is sent twice is the one that was sent
//! last. An event whose stamp isn't told has none to be judged by: who watches such a log gives it one, or leaves it out.
//!
//! A first caller, proved in `hlc_log_examples`: which rules an event breaks, as it comes, if all its records are there.
//!
//! ```rust
//! pub fn watch_event<S: BuildHasher + Drop>(
//!     alloc: Global,
//!     watch: &mut Watch<S>,
//!     event: &LogEvent,
//!     message: &[u8],
//! ) -> Result<Option<LineCauses>, AllocError>
//!     requires { IsSmallCarried event.now.carried }
//!     ensures causes { IfOk result (λ causes. causes
//!         ≡ option_map (line_causes (2 ^ 32 - 1)) (event_of watch.old (ruled_by Receives.Tick 0 event.now) message.now)) }
//!     ensures kept { OnOk result (watch.new ≡ after_event watch.old (ruled_by Receives.Tick 0 event.now) message.now) }
//!     ensures unchanged { OnErr result (watch.new ≡ watch.old) }
//! {
//!     let mut complete = Complete {
//!         event: None,
//!         waited: Vec::new(alloc),
//!     };
//!     let ruled = RuledEvent::new(Receives::Tick, 0, event);
//!     watch.event(&ruled, message, &mut complete)?;
//!     Ok(complete.event.map(|records| records.causes(u32::MAX)))
//! }
//! ```
#![tactic(auto)]

mod awaited;
mod file_line;
mod latest_sends;
pub mod laws;
mod message_role;
mod messages;
mod records;
mod ruled_event;
mod watch;

pub use file_line::FileLine;
pub use message_role::MessageRole;
pub use records::{Claimed, LineCauses, Records};
pub use ruled_event::RuledEvent;
pub use watch::{Complete, Watch};
