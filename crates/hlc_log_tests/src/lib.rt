//! Tests of the crates for the logs of other systems, through their public calls, and of `hlc_log_examples`: first callers, readers and writers that take a byte
//! at a time or fail, limits of a caller, and records that no text makes. What the program answers to logs stands in the transcripts of `.ci/program`.
#![tactic(auto)]

#[cfg(test)]
mod first_callers;
#[cfg(test)]
mod log_lines;
#[cfg(test)]
mod log_records;
#[cfg(test)]
mod slow;
