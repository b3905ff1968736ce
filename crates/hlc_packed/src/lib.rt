//! Stamps packed into one number of 64 bits, and the clock rule over such numbers.
//!
//! Databases keep a stamp as one number: `c` in its low bits, as many as its owner chose, and `l` in the others. Such numbers
//! are compared as stamps are. When `c` is full, the next number has the next `l` and a `c` of 0, so a packed clock goes on
//! where one of `hlc_stamp` would have no room.
//!
//! - `PackedBits` is how many bits `c` has, 1 to 32. `pack` and `unpack` turn a stamp into a number and back.
//! - `tick` and `merge` give the number of a node's next event: the least that is above the last one, and the message's, and
//!   whose `l` isn't behind the reading; unless that is too far ahead of the reading. They change nothing, so a caller may put
//!   them between a load and a compare-and-swap. `observe` is for a clock that sees a message and doesn't count it.
//! - `bound` gives the number that a node makes durable, so that it can begin there after a restart.
//! - `is_ahead` says whether an event could have had a lower number.
//!
//! A first caller, proved in `hlc_examples`: a message from one node to another, as packed numbers.
//!
//! ```rust
//! pub fn pass_packed(
//!     bits: PackedBits,
//!     sender: u64,
//!     receiver: u64,
//!     reading: u64,
//!     limit: u64,
//! ) -> Result<(u64, u64), StepFault>
//!     ensures above_sender { IfOk result (λ numbers. IsAbove bits.bits sender numbers.0) }
//!     ensures above_send { IfOk result (λ numbers. IsAbove bits.bits numbers.0 numbers.1) }
//!     ensures above_receiver { IfOk result (λ numbers. IsAbove bits.bits receiver numbers.1) }
//! {
//!     let send = bits.tick(sender, reading, limit)?;
//!     let delivery = bits.merge(receiver, send, reading, limit)?;
//!     Ok((send, delivery))
//! }
//! ```
#![tactic(auto)]

pub mod laws;
mod packed_bits;
mod step_fault;

pub use packed_bits::PackedBits;
pub use step_fault::StepFault;
