ghost use Rattle.std.specs.Prelude.{◌≡◌};
ghost use Rattle.hlc_log_picture.specs.Looks.{form_of, form_of_found, look_of};

use crate::event_finding::EventFinding;
use hlc_causes::Finding;
use hlc_diagram::{Form, Look};
use hlc_verdict::Verdict;

/// The form of the dot of an event whose stamp is found to be this: each has one of its own.
pub fn form_of(found: Finding) -> Form
    ensures { result ≡ form_of found }
{
    match found {
        Finding::Judged(Verdict::Least) => Form::Pill,
        Finding::Judged(Verdict::Behind) => Form::Dip,
        Finding::Judged(Verdict::NotAbove(_)) => Form::Box,
        Finding::Judged(Verdict::Low(_)) => Form::Slant,
        Finding::Judged(Verdict::Ahead(_)) => Form::Peak,
        Finding::RolledOver => Form::Hexagon,
    }
}

// The form of the dot of an event, by what is found of its stamp. One that the log doesn't tell has the form of a least one.
fn form_of_found(found: Option<Finding>) -> Form
    ensures { result ≡ form_of_found found }
{
    match found {
        Some(found) => form_of(found),
        None => Form::Pill,
    }
}

/// How the dot of an event looks: a cause has a ring.
pub(crate) fn look_of(event_finding: EventFinding) -> Look
    ensures { result ≡ look_of event_finding }
{
    Look {
        form: form_of_found(event_finding.finding),
        is_ringed: event_finding.is_cause,
    }
}
