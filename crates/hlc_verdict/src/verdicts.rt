ghost use Rattle.std.specs.Prelude.{◌≡◌, ℕ, ◌+◌, ◌<◌, List, [], ◌∷◌, ◌++◌, length, map, take};
ghost use Rattle.std.specs.Iterator.{YieldsFirst, item_count};
ghost use Rattle.std.specs.Option.{ForSome};
ghost use Rattle.hlc_stamp.specs.Order.{Pair};
ghost use Rattle.hlc_causality.specs.Assignment.{IsLeast, pair_at};
ghost use Rattle.hlc_causality.specs.Neighbours.{NamesLastPair, place_of};
ghost use Rattle.hlc_causality.specs.Predecessors.{previous_of};
ghost use Rattle.hlc_verdict.specs.Trace.{IsSoundAt, claim_at, trace_skeleton};
ghost use Rattle.hlc_verdict.specs.Verdict.{first_not_above, if_not_above, verdict_of};

use crate::claim::{AsClaim, Claim, ClaimKind};
use crate::verdict::Verdict;
use hlc_stamp::{EventId, MAX_NODES, Stamp, merge, tick};
use std::cmp::Ordering;
use std::iter::FusedIterator;
use std::marker::Model;

/// The verdicts on a trace, in the order of its claims, each made when it is asked for; seen as the list of those that are left.
#[derive(Drop)]
pub struct Verdicts<'a, C: AsClaim> {
    pub(crate) claims: &'a [C],
    // By node: its last claim so far.
    pub(crate) last: [Option<EventId>; MAX_NODES as usize],
    // The least stamps of the claims so far, with room for the others.
    pub(crate) least: Vec<Stamp>,
}

impl<'a, C: AsClaim> Model for Verdicts<'a, C> {
    ghost use Rattle.std.specs.Prelude.{List, length, map, vec_capacity};
    ghost use Rattle.hlc_verdict.specs.declared.verdict.Verdict.{Verdict};

    ghost Value = { List Verdict };

    ghost use Rattle.hlc_verdict.specs.Verdicts.{IsUnderWay, verdicts_from};

    ghost view = { λ v. verdicts_from (map C.claim_of v.claims.now) (length v.least.items) };

    ghost invariant = { λ v. IsUnderWay (map C.claim_of v.claims.now) v.last v.least.items (vec_capacity v.least) };
}

impl<'a, C: AsClaim> Iterator for Verdicts<'a, C> {
    type Item = Verdict;

    ghost next_gives = { YieldsFirst (λ rest. rest) };

    ghost remaining = { item_count (λ rest. rest) };

    fn next(&mut self) -> Option<Verdict> {
        let claims = self.claims;
        let place = self.least.len();
        if place == claims.len() {
            return None;
        }
        let claim = claim_in(claims, place);
        let node = claim.node.0 as usize;
        let previous = self.last[node];
        self.last[node] = Some(EventId(place as u32));
        let stamp = least_stamp(claims, place, previous, &self.least);
        self.least.push_reserved(stamp);
        Some(verdict(claims, place, previous, stamp))
    }
}

impl<'a, C: AsClaim> FusedIterator for Verdicts<'a, C> {}

// The claim at a place.
pub(crate) fn claim_in<C: AsClaim>(claims: &[C], place: usize) -> Claim
    requires { place < length claims.now }
    ensures { result ≡ claim_at (map C.claim_of claims.now) place }
{
    claims[place].as_claim()
}

// The least stamp of the event at a place, after those before it.
fn least_stamp<C: AsClaim>(
    claims: &[C],
    place: usize,
    previous: Option<EventId>,
    least: &[Stamp],
) -> Stamp
    requires exists { place < length claims.now }
    requires sound { IsSoundAt (map C.claim_of claims.now) place }
    requires previous { place_of previous ≡ previous_of (trace_skeleton (map C.claim_of claims.now)) place }
    requires before { IsLeast (take place (trace_skeleton (map C.claim_of claims.now))) least.now }
    ensures { IsLeast (take (place + 1) (trace_skeleton (map C.claim_of claims.now))) (least.now ++ result ∷ []) }
{
    let old = last_stamp(previous, least);
    let claim = claim_in(claims, place);
    match claim.kind {
        ClaimKind::Receive { sent } => merge(old, least[sent.0 as usize], claim.reading),
        _ => tick(old, claim.reading),
    }
}

// The stamp of a node's last event, or (0, 0) before its first.
fn last_stamp(last: Option<EventId>, stamps: &[Stamp]) -> Stamp
    requires { ForSome last (λ d. d.0 < length stamps.now) }
    ensures { NamesLastPair stamps.now last result }
{
    match last {
        Some(event) => stamps[event.0 as usize],
        None => Stamp { l: 0, c: 0 },
    }
}

// The verdict on the claim at a place, by the claims before it and the least stamp.
fn verdict<C: AsClaim>(
    claims: &[C],
    place: usize,
    previous: Option<EventId>,
    least: Stamp,
) -> Verdict
    requires exists { place < length claims.now }
    requires sound { IsSoundAt (map C.claim_of claims.now) place }
    requires previous { place_of previous ≡ previous_of (trace_skeleton (map C.claim_of claims.now)) place }
    ensures { (pairs : List Pair) → pair_at pairs place ≡ least → result ≡ verdict_of (map C.claim_of claims.now) pairs place }
{
    let claim = claim_in(claims, place);
    if claim.stamp.l < claim.reading {
        return Verdict::Behind;
    }
    match first_not_above(claims, place, previous) {
        Some(event) => Verdict::NotAbove(event),
        None => match claim.stamp.cmp(&least) {
            Ordering::Less => Verdict::Low(least),
            Ordering::Equal => Verdict::Least,
            Ordering::Greater => Verdict::Ahead(least),
        },
    }
}

// The first direct predecessor above which the stamp claimed at a place isn't.
fn first_not_above<C: AsClaim>(
    claims: &[C],
    place: usize,
    previous: Option<EventId>,
) -> Option<EventId>
    requires exists { place < length claims.now }
    requires sound { IsSoundAt (map C.claim_of claims.now) place }
    requires previous { place_of previous ≡ previous_of (trace_skeleton (map C.claim_of claims.now)) place }
    ensures { place_of result ≡ first_not_above (map C.claim_of claims.now) place }
{
    let sent = match claim_in(claims, place).kind {
        ClaimKind::Receive { sent } => Some(sent),
        _ => None,
    };
    if_not_above(claims, place, previous).or(if_not_above(claims, place, sent))
}

// An event, if the stamp claimed at a place is at most the one claimed there.
fn if_not_above<C: AsClaim>(claims: &[C], place: usize, event: Option<EventId>) -> Option<EventId>
    requires exists { place < length claims.now }
    requires earlier { ForSome event (λ d. d.0 < place) }
    ensures { place_of result ≡ if_not_above (map C.claim_of claims.now) place (place_of event) }
{
    let stamp = claim_in(claims, place).stamp;
    event.filter(|event| stamp <= claim_in(claims, event.0 as usize).stamp)
}
