ghost use Rattle.std.specs.Prelude.{◌≡◌, if◌then◌else◌, nat_le};
ghost use Rattle.hlc_causes.specs.Local.{if_below, is_not_after, local_causes};
ghost use Rattle.hlc_causes.specs.Rule.{next_l, rule_pair};

use crate::causes::{leaves_room, next_l};
use crate::direct::follows;
use hlc_causality::EventRule;
use hlc_stamp::Stamp;

/// What the clock rule looks at, at one event, whatever else a log claims.
#[derive(Clone, Copy)]
pub struct LocalEvent {
    /// What the rule asks of it.
    pub rule: EventRule,
    /// The stamp that is claimed for it.
    pub stamp: Stamp,
    /// The stamp claimed at the previous event of its node, if there is one.
    pub previous: Option<Stamp>,
    /// The stamp claimed at the send of what it delivers, if it delivers something.
    pub send: Option<Stamp>,
}

/// The rules that are broken at an event, as `Causes` has them, but it names no event.
#[derive(Clone, Copy, Debug, PartialEq, Eq)]
pub struct LocalCauses {
    /// Whether it is behind.
    pub behind: bool,
    /// Whether it isn't above the stamp at the previous event of its node, or, where it doesn't tick, is below that one.
    pub not_above_previous: bool,
    /// Whether it isn't above the stamp at the send of what it delivers, or, where it doesn't tick, is below that one.
    pub not_above_send: bool,
    /// The least stamp that could be written there, if it is ahead of that one.
    pub ahead: Option<Stamp>,
}

impl LocalEvent {
    /// The rules that are broken there.
    ///
    /// `full` is what it is at `causes_at`. It takes constant time and no memory.
    pub fn causes(&self, full: u32) -> LocalCauses
        ensures { result ≡ local_causes full self.now }
    {
        LocalCauses {
            behind: self.stamp < self.rule.floor,
            not_above_previous: self.is_not_after(self.previous),
            not_above_send: self.is_not_after(self.send),
            ahead: least_below(
                self.rule,
                self.previous.max(self.send),
                full.max(self.stamp.c),
                self.stamp,
            ),
        }
    }

    // Whether the stamp may not come directly after another one, if there is one.
    fn is_not_after(&self, direct: Option<Stamp>) -> bool
        ensures { result ≡ is_not_after self.now direct }
    {
        match direct {
            Some(direct) => !follows(self.rule.ticks, direct, self.stamp),
            None => false,
        }
    }
}

// The least stamp with a `c` up to `top` that may come directly after the greatest before it, if there is any, and isn't below the floor: if it
// is below another one.
fn least_below(rule: EventRule, before: Option<Stamp>, top: u32, stamp: Stamp) -> Option<Stamp>
    ensures { let p = rule_pair rule.ticks before rule.floor in result ≡ if_below (if nat_le p.c top then p else next_l p) stamp }
{
    match before {
        Some(before) if rule.floor <= before => {
            if leaves_room(rule.ticks, before, top) {
                if_below(rule.after(before), stamp)
            } else {
                next_if_below(before, stamp)
            }
        }
        _ => {
            if rule.floor.c <= top {
                if_below(rule.floor, stamp)
            } else {
                next_if_below(rule.floor, stamp)
            }
        }
    }
}

// A stamp, if it is below another one.
fn if_below(least: Stamp, stamp: Stamp) -> Option<Stamp>
    ensures { result ≡ if_below least stamp }
{
    if least < stamp { Some(least) } else { None }
}

// The stamp with the next `l`, if it is below another one.
fn next_if_below(least: Stamp, stamp: Stamp) -> Option<Stamp>
    ensures { result ≡ if_below (next_l least) stamp }
{
    if least.l < stamp.l {
        if_below(next_l(least), stamp)
    } else {
        None
    }
}
