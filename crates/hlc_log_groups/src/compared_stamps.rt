// The stamps of a cause: the one that breaks the rule, and the one with which the rule compares it.

ghost use Rattle.std.specs.Prelude.{◌≡◌, length};
ghost use Rattle.hlc_ordered_log.specs.InOrder.{IsInOrder};
ghost use Rattle.hlc_log_groups.specs.ComparedStamps.{asked_pair, logged_pair, seen_pair, told_pair};
ghost use Rattle.hlc_log_groups.specs.Groups.{NamesEventsBefore};

use crate::broken_rule::BrokenRule;
use crate::cause_place::CausePlace;
use hlc_causes::Claims;
use hlc_ordered_log::OrderedLog;
use hlc_stamp::Stamp;

// What the event of a cause saw claimed where the rule looks; or the floor, if it looks at no event.
fn seen_stamp(log: &OrderedLog, place: CausePlace) -> Stamp
    requires ordered { IsInOrder log.now }
    requires exist { NamesEventsBefore (length log.now.events) place }
    ensures { result ≡ seen_pair log.now place }
{
    let position = log.position(place.event);
    match place.compared {
        Some(event) => log.seen(position).stamp(event),
        None => log.execution().rule(position).floor,
    }
}

// The stamp that breaks the rule: the one that the event claims, or that its message carried.
pub(crate) fn told_stamp(log: &OrderedLog, rule: BrokenRule, place: CausePlace) -> Stamp
    requires ordered { IsInOrder log.now }
    requires exist { NamesEventsBefore (length log.now.events) place }
    ensures { result ≡ told_pair log.now rule place }
{
    match rule {
        BrokenRule::Carried => seen_stamp(log, place),
        BrokenRule::Behind | BrokenRule::NotAbove | BrokenRule::Ahead => {
            log.at(place.event).stamp
        }
    }
}

// The stamp that the log claims where the rule looks; or the floor, if it looks at no event.
fn logged_stamp(log: &OrderedLog, place: CausePlace) -> Stamp
    requires ordered { IsInOrder log.now }
    requires exist { NamesEventsBefore (length log.now.events) place }
    ensures { result ≡ logged_pair log.now place }
{
    match place.compared {
        Some(event) => log.event(event).stamp,
        None => seen_stamp(log, place),
    }
}

// The stamp with which the rule compares that: what the event saw, or what the send claims whose message carried another one.
pub(crate) fn asked_stamp(log: &OrderedLog, rule: BrokenRule, place: CausePlace) -> Stamp
    requires ordered { IsInOrder log.now }
    requires exist { NamesEventsBefore (length log.now.events) place }
    ensures { result ≡ asked_pair log.now rule place }
{
    match rule {
        BrokenRule::Carried => logged_stamp(log, place),
        BrokenRule::Behind | BrokenRule::NotAbove | BrokenRule::Ahead => seen_stamp(log, place),
    }
}
