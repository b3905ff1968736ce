//! Tests of the crates from `hlc_stamp` to `hlc_explain` through their public calls: of what no run of the program shows, since .ci/program, and
//! .ci/store beside a model of the store, test what one does; and of the callers in `hlc_examples`.
#![tactic(auto)]

#[cfg(test)]
mod explanations;
#[cfg(test)]
mod first_callers;
#[cfg(test)]
mod sizes;
#[cfg(test)]
mod vectors;
#[cfg(test)]
mod verdicts;
