//! Tests of what no run of the program shows (runs are tested by .ci/program, readers and writers that fail by .ci/refusals), through the public
//! calls of `hlc_text`, `hlc_trace`, `hlc_cli`, `hlc_command_line` and `hlc_picture`: how far is read, exports, outputs that aren't flushed, faults
//! that are hard to bring about, messages that are crossed out; and the callers over text in `hlc_examples`, and those in `hlc_log_examples`.
#![tactic(auto)]

#[cfg(test)]
mod callers;
#[cfg(test)]
mod comparisons;
#[cfg(test)]
mod exports;
#[cfg(test)]
mod failed_outputs;
#[cfg(test)]
mod first_callers;
#[cfg(test)]
mod pictures;
#[cfg(test)]
mod readings;
#[cfg(test)]
mod streams;
#[cfg(test)]
mod texts;
