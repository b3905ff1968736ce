ghost use Rattle.std.specs.Prelude.{◌≡◌, ◌+◌, ◌-◌, ◌^◌, ◌++◌, ◌<◌, ◌≤◌, ℕ, IfOk, IfSome, None, OnOk, Some, length, option_map, option_to_list};
ghost use Rattle.std.specs.Bool.{then_some};
ghost use Rattle.hlc_causality.specs.Neighbours.{place_of};
ghost use Rattle.hlc_log.specs.OrderSkeleton.{index_in};
ghost use Rattle.hlc_ordered_log.specs.InOrder.{IsInOrder, event_in_order};
ghost use Rattle.hlc_ordered_log.specs.Found.{NameEvents, wrong_at};
ghost use Rattle.hlc_log_groups.specs.Followed.{followed_in};
ghost use Rattle.hlc_log_groups.specs.Groups.{AreGroups, AreGroupsOf, KeyedCauses, NameBefore, NamesEventsBefore, cause_at, id_of, keyed_at, total, with_cause};

use crate::broken_rule::BrokenRule;
use crate::cause_group::CauseGroup;
use crate::cause_place::CausePlace;
use crate::following::followed;
use crate::group_key::GroupKey;
use hlc_causes::Causes;
use hlc_log_text::NameKey;
use hlc_ordered_log::OrderedLog;
use hlc_stamp::{EventId, NodeId, Stamp};
use indexmap::IndexMap;
use std::alloc::{AllocError, Global};

// A group with one cause more, which stands at a place; or one that has this cause alone.
fn with_cause(group: Option<CauseGroup>, place: CausePlace) -> CauseGroup
    requires { IfSome group (λ group. group.causes < 2 ^ 32 - 1) }
    ensures { result ≡ with_cause group place }
{
    match group {
        None => CauseGroup {
            causes: 1,
            first: place,
            second: None,
            third: None,
        },
        Some(group) => CauseGroup {
            causes: group.causes + 1,
            first: group.first,
            second: group.second.or(Some(place)),
            third: match group.second {
                Some(_) => group.third.or(Some(place)),
                None => None,
            },
        },
    }
}

// Adds a cause, if there is one.
fn add_cause(
    groups: &mut IndexMap<GroupKey, CauseGroup, NameKey>,
    cause: Option<(GroupKey, CausePlace)>,
) -> Result<(), AllocError>
    requires few { total groups.old.entries < 2 ^ 32 - 1 }
    ensures added { OnOk result ((causes : KeyedCauses) → AreGroups causes groups.old.entries
        → AreGroups (causes ++ option_to_list cause) groups.new.entries) }
    ensures total { OnOk result (total groups.new.entries ≤ total groups.old.entries + 1) }
    ensures places { OnOk result ((n : ℕ) → IfSome cause (λ c. NamesEventsBefore n c.1) → NameBefore n groups.old.entries
        → NameBefore n groups.new.entries) }
{
    let Some((key, place)) = cause else {
        return Ok(());
    };
    let group = with_cause(groups.get(&key).copied(), place);
    groups.insert(key, group)?;
    Ok(())
}

// The node of the event at a position, if there is one.
fn node_of(log: &OrderedLog, event: Option<EventId>) -> Option<NodeId>
    requires { IfSome event (λ d. d.0 < length log.now.events) }
    ensures { result ≡ option_map (λ d. (event_in_order log.now.events log.now.order d.0).node) event }
{
    match event {
        Some(position) => Some(log.event(position).node),
        None => None,
    }
}

// A cause at a place, by the rule, and by the event whose stamp it compares with.
fn cause_at(
    log: &OrderedLog,
    place: EventId,
    rule: BrokenRule,
    compared: Option<EventId>,
) -> (GroupKey, CausePlace)
    requires exists { place.0 < length log.now.events }
    requires event { IfSome compared (λ d. d.0 < length log.now.events) }
    ensures { result ≡ cause_at log.now place.0 rule compared }
{
    let key = GroupKey {
        node: log.at(place).node,
        rule,
        of: node_of(log, compared),
    };
    let place = CausePlace {
        event: place,
        compared,
    };
    (key, place)
}

// The cause of a stamp that is behind, if it is.
fn behind_cause(log: &OrderedLog, place: EventId, behind: bool) -> Option<(GroupKey, CausePlace)>
    requires { place.0 < length log.now.events }
    ensures value { result ≡ then_some behind (cause_at log.now place.0 BrokenRule.Behind None) }
    ensures exists { IfSome result (λ c. NamesEventsBefore (length log.now.events) c.1) }
{
    if behind {
        Some(cause_at(log, place, BrokenRule::Behind, None))
    } else {
        None
    }
}

// The cause of a stamp that isn't above that of a direct predecessor, if it isn't, or whose message wasn't as its send claims.
fn compared_cause(
    log: &OrderedLog,
    place: EventId,
    rule: BrokenRule,
    direct: Option<EventId>,
) -> Option<(GroupKey, CausePlace)>
    requires exists { place.0 < length log.now.events }
    requires event { IfSome direct (λ d. d.0 < length log.now.events) }
    ensures value { result ≡ option_map (λ d. cause_at log.now place.0 rule (Some d)) direct }
    ensures exists { IfSome result (λ c. NamesEventsBefore (length log.now.events) c.1) }
{
    match direct {
        Some(direct) => Some(cause_at(log, place, rule, Some(direct))),
        None => None,
    }
}

// The cause of a stamp that is ahead of the rule's, if it is: the rule compares with the event that its own stamp follows.
fn ahead_cause(
    log: &OrderedLog,
    place: EventId,
    least: Option<Stamp>,
) -> Option<(GroupKey, CausePlace)>
    requires ordered { IsInOrder log.now }
    requires exists { place.0 < length log.now.events }
    ensures value { result ≡ option_map
        (λ p. cause_at log.now place.0 BrokenRule.Ahead (id_of (followed_in log.now (index_in log.now.order place.0)))) least }
    ensures exists { IfSome result (λ c. NamesEventsBefore (length log.now.events) c.1) }
{
    match least {
        Some(_) => {
            let before = followed(log, log.position(place));
            Some(cause_at(log, place, BrokenRule::Ahead, before))
        }
        None => None,
    }
}

// Adds the causes at a place, whose event breaks these rules, and whose message carried another stamp than this send.
fn add_causes(
    groups: &mut IndexMap<GroupKey, CauseGroup, NameKey>,
    log: &OrderedLog,
    place: EventId,
    found: Causes,
    wrong: Option<EventId>,
) -> Result<(), AllocError>
    requires ordered { IsInOrder log.now }
    requires exists { place.0 < length log.now.events }
    requires events { NameEvents log.now found }
    requires wrong { place_of wrong ≡ wrong_at log.now place.0 }
    requires wrong_event { IfSome wrong (λ d. d.0 < length log.now.events) }
    requires few { total groups.old.entries + 5 < 2 ^ 32 }
    ensures added { OnOk result ((causes : KeyedCauses) → AreGroups causes groups.old.entries
        → AreGroups (causes ++ keyed_at log.now place.0 found) groups.new.entries) }
    ensures total { OnOk result (total groups.new.entries ≤ total groups.old.entries + 5) }
    ensures places { OnOk result (NameBefore (length log.now.events) groups.old.entries → NameBefore (length log.now.events) groups.new.entries) }
{
    let behind = behind_cause(log, place, found.behind);
    let previous = compared_cause(log, place, BrokenRule::NotAbove, found.not_above_previous);
    let send = compared_cause(log, place, BrokenRule::NotAbove, found.not_above_send);
    let ahead = ahead_cause(log, place, found.ahead);
    let carried = compared_cause(log, place, BrokenRule::Carried, wrong);
    add_cause(groups, behind)?;
    add_cause(groups, previous)?;
    add_cause(groups, send)?;
    add_cause(groups, ahead)?;
    add_cause(groups, carried)
}

/// The groups of the causes of a log, by what the causes of each have in common, in the order of the first cause of each. Causes stand in the
/// order of the lines, and those of one event in that of the rows that tell them.
///
/// `full` is the greatest `c` that the form of the stamps can write. It goes over the events once, with a look-up for each cause, and takes memory
/// for each group. What is found doesn't depend on the key by which groups are hashed.
pub fn groups_of(
    alloc: Global,
    log: &OrderedLog,
    full: u32,
    key: NameKey,
) -> Result<IndexMap<GroupKey, CauseGroup, NameKey>, AllocError>
    ensures groups { IfOk result (λ groups. AreGroupsOf log.now full groups.entries) }
    ensures places { IfOk result (λ groups. NameBefore (length log.now.events) groups.entries) }
{
    let mut groups = IndexMap::with_hasher(alloc, key);
    for place in 0..log.len() {
        let place = EventId(place);
        let found = log.causes_of(place, full);
        let wrong = log.wrongly_carried_at(place);
        add_causes(&mut groups, log, place, found, wrong)?;
    }
    Ok(groups)
}
