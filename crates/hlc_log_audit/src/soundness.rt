// Whether anything in a log is broken, or over a limit.

ghost use Rattle.std.specs.Prelude.{◌↔◌, ◌<◌, IsTrue, length};
ghost use Rattle.hlc_log_text.specs.StampForms.{greatest_c};
ghost use Rattle.hlc_ordered_log.specs.InOrder.{IsInOrder};
ghost use Rattle.hlc_log_audit.specs.Audit.{CarriesWrongly, ClaimsOver, ExceedsLimit, IsBeyond, IsOutcome, IsOverLimit, TellsDisorder};
ghost use Rattle.hlc_ordered_log.specs.Counts.{AreCounted};

use crate::claimed_ahead::claimed_ahead;
use crate::outcome::Outcome;
use crate::rules::AuditRules;
use hlc_ordered_log::{Counts, OrderedLog};
use hlc_stamp::EventId;

// Whether a stamp is behind, or not above another one.
fn breaks_order(counts: Counts) -> bool
    ensures { TellsDisorder counts result }
{
    counts.behind > 0 || counts.not_above > 0
}

// Whether some message carried another stamp than the log claims for its send.
pub(crate) fn carries_wrongly(log: &OrderedLog) -> bool
    ensures { IsTrue result ↔ CarriesWrongly log.now }
{
    for position in 0..log.len() {
        if log.wrongly_carried(EventId(position)).is_some() {
            return true;
        }
    }
    false
}

// Whether the drift of an event exceeds a limit. If its reading isn't told, it says nothing of a clock.
fn is_beyond(log: &OrderedLog, limit: u64, position: EventId) -> bool
    requires ordered { IsInOrder log.now }
    requires exists { position.0 < length log.now.events }
    ensures { IsTrue result ↔ IsBeyond limit log.now position.0 }
{
    log.execution().get(position).unwrap().drift() > limit && log.has_reading(position)
}

// Whether a drift exceeds a limit, if there is one.
fn exceeds_limit(log: &OrderedLog, limit: Option<u64>) -> bool
    ensures { IsTrue result ↔ ExceedsLimit limit log.now }
{
    let Some(limit) = limit else {
        return false;
    };
    for position in 0..log.len() {
        if is_beyond(log, limit, EventId(position)) {
            return true;
        }
    }
    false
}

// Whether a claim is over a limit, if there is one.
fn claims_over(log: &OrderedLog, limit: Option<u64>) -> bool
    ensures { IsTrue result ↔ ClaimsOver limit log.now }
{
    let Some(limit) = limit else {
        return false;
    };
    for place in 0..log.len() {
        if claimed_ahead(log.at(EventId(place))) > limit {
            return true;
        }
    }
    false
}

// Whether a log is over a limit, if there is one.
fn is_over_limit(log: &OrderedLog, limit: Option<u64>) -> bool
    ensures { IsTrue result ↔ IsOverLimit limit log.now }
{
    exceeds_limit(log, limit) || claims_over(log, limit)
}

// What is to be said of a log whose stamps have these verdicts.
pub(crate) fn outcome(log: &OrderedLog, counts: Counts, rules: AuditRules) -> Outcome
    requires { AreCounted log.now (greatest_c rules.records.form) counts }
    ensures { IsOutcome rules log.now result }
{
    let over_limit = is_over_limit(log, rules.limit);
    if breaks_order(counts) || carries_wrongly(log) {
        return Outcome::Broken { over_limit };
    }
    if over_limit {
        return Outcome::OverLimit;
    }
    Outcome::Sound
}
