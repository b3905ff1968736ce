// The rules of the clocks of an execution.

ghost use Rattle.std.specs.Prelude.{◌≡◌, ◌↔◌, ◌^◌, ◌<◌, ◌≤◌, IfOk, IsTrue, OnErr, OnOk, is_some, length};
ghost use Rattle.hlc_causality.specs.Causality.{SkeletonEvent};
ghost use Rattle.hlc_causality.specs.ReceiveEvents.{event_by, own_at, plain_rules};
ghost use Rattle.hlc_execution.specs.Rules.{with_rule};

use hlc_causality::{EventRule, Receives};
use std::alloc::{AllocError, Global};
use std::marker::Model;

#[derive(Drop)]
pub(crate) struct Rules {
    // What the clocks do at receives.
    receives: Receives,
    // By the places of events, the rules that they have of their own, up to the last one that has any.
    own: Vec<Option<EventRule>>,
}

impl Model for Rules {
    ghost use Rattle.hlc_causality.specs.ReceiveEvents.{ClockRules};

    ghost Value = { ClockRules };

    ghost use Rattle.hlc_execution.specs.Rules.{kept_rules};

    ghost view = { λ a. kept_rules a.receives a.own };
}

impl Rules {
    // Those of clocks that do this at a receive. No event has a rule of its own.
    pub(crate) fn new(alloc: Global, receives: Receives) -> Rules
        ensures { result ≡ plain_rules receives }
    {
        Rules {
            receives,
            own: Vec::new(alloc),
        }
    }

    // What the clocks do at receives.
    pub(crate) fn receives(&self) -> Receives
        ensures { result ≡ self.now.receives }
    {
        self.receives
    }

    // Whether each event ticks from its reading on: receives tick, and no event has a rule of its own.
    pub(crate) fn all_tick(&self) -> bool
        ensures { IsTrue result ↔ (self.now ≡ plain_rules Receives.Tick) }
    {
        self.receives == Receives::Tick && self.own.is_empty()
    }

    // What the rule of the event at a place asks, if the event is a receive or not and has this reading.
    pub(crate) fn rule_at(&self, place: usize, is_receive: bool, reading: u64) -> EventRule
        ensures floor { (x : SkeletonEvent) → is_some x.send ≡ is_receive → x.reading ≡ reading →
            result.floor ≡ (event_by self.now.receives (own_at self.now place) x).floor }
        ensures ticks { (x : SkeletonEvent) → is_some x.send ≡ is_receive → x.reading ≡ reading →
            result.ticks ≡ (event_by self.now.receives (own_at self.now place) x).ticks }
    {
        match self.own.get(place) {
            Some(Some(rule)) => *rule,
            _ => self.receives.rule(is_receive, reading),
        }
    }

    // Gives the event at a place a rule of its own. No event at the place or after it has one.
    pub(crate) fn give(&mut self, place: usize, rule: EventRule) -> Result<(), AllocError>
        requires none { length self.old.own ≤ place }
        requires small { place < 2 ^ 32 }
        ensures given { OnOk result (self.new ≡ with_rule self.old place rule) }
        ensures unchanged { OnErr result (self.new ≡ self.old) }
    {
        let without = place - self.own.len();
        self.own.reserve(without + 1)?;
        for _event in 0..without {
            self.own.push_reserved(None);
        }
        self.own.push_reserved(Some(rule));
        Ok(())
    }

    // The same rules, in memory of their own.
    pub(crate) fn copy(&self, alloc: Global) -> Result<Rules, AllocError>
        ensures { IfOk result (λ copy. copy ≡ self.now) }
    {
        Ok(Rules {
            receives: self.receives,
            own: Vec::from_slice(alloc, &self.own)?,
        })
    }
}
