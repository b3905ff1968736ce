// What is found of the events that are complete.

ghost use Rattle.std.specs.Prelude.{◌≡◌, ◌||◌};
ghost use Rattle.std.specs.List.{list_any};
ghost use Rattle.hlc_watched_log.specs.CauseRows.{has_cause, is_broken};
ghost use Rattle.hlc_watched_log.specs.Taken.{complete_in};

use crate::cause_row::{breaks_by, wrong_line};
use hlc_watch::{Complete, Records};

// What is found of some events.
#[derive(Clone, Copy)]
pub(crate) struct Found {
    // Whether one breaks a rule that isn't about least stamps.
    pub(crate) broken: bool,
    // Whether one breaks any rule, so that there is a row of it.
    pub(crate) has_cause: bool,
}

impl Found {
    // Whether there is a row to write, where an event is over a limit or isn't.
    pub(crate) fn tells(self, over_limit: bool) -> bool
        ensures { result ≡ (self.has_cause || over_limit) }
    {
        self.has_cause || over_limit
    }
}

// What is found of an event, for which its rules are looked at once.
fn found_of(full: u32, records: &Records) -> Found
    ensures broken { result.broken ≡ is_broken full records.now }
    ensures cause { result.has_cause ≡ has_cause full records.now }
{
    let causes = records.causes(full);
    let broken = breaks_by(causes, wrong_line(records));
    Found {
        broken,
        has_cause: broken || causes.ahead.is_some(),
    }
}

// Whether an event breaks a rule that isn't about least stamps.
fn is_broken(full: u32, records: &Records) -> bool
    ensures { result ≡ is_broken full records.now }
{
    found_of(full, records).broken
}

// Whether it breaks any rule.
fn has_cause(full: u32, records: &Records) -> bool
    ensures { result ≡ has_cause full records.now }
{
    found_of(full, records).has_cause
}

// Whether one of some events breaks a rule that isn't about least stamps.
fn are_any_broken(full: u32, all: &[Records]) -> bool
    ensures { result ≡ list_any (is_broken full) all.now }
{
    all.iter().any(|records| is_broken(full, records))
}

// Whether one of them breaks any rule.
fn have_any_causes(full: u32, all: &[Records]) -> bool
    ensures { result ≡ list_any (has_cause full) all.now }
{
    all.iter().any(|records| has_cause(full, records))
}

// What is found of the events that are complete now.
pub(crate) fn found_in(full: u32, complete: &Complete) -> Found
    ensures broken { result.broken ≡ list_any (is_broken full) (complete_in complete.now) }
    ensures cause { result.has_cause ≡ list_any (has_cause full) (complete_in complete.now) }
{
    let waited = Found {
        broken: are_any_broken(full, &complete.waited),
        has_cause: have_any_causes(full, &complete.waited),
    };
    match &complete.event {
        Some(records) => {
            let event = found_of(full, records);
            Found {
                broken: event.broken || waited.broken,
                has_cause: event.has_cause || waited.has_cause,
            }
        }
        None => waited,
    }
}
