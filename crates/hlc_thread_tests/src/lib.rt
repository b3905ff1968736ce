//! Tests of seats and replicas, which may follow seeded scripts, through the public calls of `hlc_held` and `hlc_shared`, and of the callers over them in
//! `hlc_examples`.
#![tactic(auto)]

#[cfg(test)]
mod actions;
#[cfg(test)]
mod first_callers;
#[cfg(test)]
mod forged_logs;
#[cfg(test)]
mod freeze;
#[cfg(test)]
mod replica_storms;
#[cfg(test)]
mod replicas;
#[cfg(test)]
mod shared_calls;
