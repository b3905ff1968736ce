// The lanes of a picture.

ghost use Rattle.std.specs.Prelude.{◌≡◌, ℕ, ◌-◌, ◌<◌, ◌≤◌, All, IfOk, List, false, length, map, slice_index_or};
ghost use Rattle.hlc_stamp.specs.Ids.{is_among, places_of};
ghost use Rattle.hlc_causality.specs.Places.{places_below};
ghost use Rattle.hlc_figures.specs.Columns.{places_from};
ghost use Rattle.hlc_figures.specs.Content.{NodesExist, node_at};
ghost use Rattle.hlc_figures.specs.Lanes.{lane_at, lane_of, lanes_of};

use crate::kept::node;
use crate::subject::Subject;
use hlc_stamp::{EventId, NodeId};
use hlc_svg::frame::LaneId;
use std::alloc::{AllocError, Global};
use std::marker::Model;

/// The lanes of a picture: the nodes that have one, in the order of their numbers.
#[derive(Drop)]
pub struct Lanes {
    // The numbers of the nodes, rising.
    nodes: Vec<u16>,
}

impl Model for Lanes {
    ghost use Rattle.std.specs.Prelude.{ℕ, List};
    ghost use Rattle.hlc_figures.specs.Lanes.{AreInOrder};

    ghost Value = { List ℕ };

    ghost view = { λ lanes. lanes.nodes.items };

    ghost invariant = { λ lanes. AreInOrder lanes.nodes.items };
}

impl Lanes {
    /// How many there are.
    pub fn len(&self) -> u16
        ensures { result ≡ length self.now }
    {
        self.nodes.len() as u16
    }

    /// The node of a lane.
    pub fn node(&self, lane: LaneId) -> NodeId
        requires { lane.0 < length self.now }
        ensures { result.0 ≡ slice_index_or self.now lane.0 0 }
    {
        NodeId(self.nodes[usize::from(lane.0)])
    }

    /// Whether a node has one.
    pub fn has(&self, node: NodeId) -> bool
        ensures { result ≡ is_among self.now node.0 }
    {
        self.nodes.binary_search(&node.0).is_ok()
    }

    /// The lane of a node or, if it has none, where that would stand.
    pub fn lane(&self, node: NodeId) -> LaneId
        ensures { result.0 ≡ lane_of self.now node.0 }
    {
        let place = match self.nodes.binary_search(&node.0) {
            Ok(place) | Err(place) => place,
        };
        LaneId(place as u16)
    }
}

/// The lane on which an event stands.
pub fn lane<S: Subject>(subject: &S, lanes: &Lanes, event: EventId) -> LaneId
    requires { event.0 < length (S.content subject.now).events }
    ensures { result.0 ≡ lane_at (S.content subject.now) lanes.now event.0 }
{
    lanes.lane(node(subject, event))
}

// Each event happens at a node that there is.
fn nodes_exist<S: Subject>(subject: &S)
    ensures { NodesExist (S.content subject.now) }
{
    let _count = subject.execution().len();
}

// The nodes at which the events from one on before another happen.
fn nodes_between<S: Subject>(
    alloc: Global,
    subject: &S,
    first: u32,
    end: u32,
) -> Result<Vec<u16>, AllocError>
    requires ordered { first ≤ end }
    requires exist { end ≤ length (S.content subject.now).events }
    ensures { IfOk result (λ nodes. nodes.items ≡ map (node_at (S.content subject.now)) (places_from first (end - first))) }
{
    let mut nodes = Vec::new(alloc);
    for place in first..end {
        nodes.push(node(subject, EventId(place)).0)?;
    }
    Ok(nodes)
}

// The nodes at which some events happen.
fn nodes_at<S: Subject>(
    alloc: Global,
    subject: &S,
    events: &[EventId],
) -> Result<Vec<u16>, AllocError>
    requires { All (λ e. e < length (S.content subject.now).events) (places_of events.now) }
    ensures { IfOk result (λ nodes. nodes.items ≡ map (node_at (S.content subject.now)) (places_of events.now)) }
{
    let mut nodes = Vec::new(alloc);
    for event in events {
        nodes.push(node(subject, *event).0)?;
    }
    Ok(nodes)
}

// The lanes of some nodes.
fn in_order<S: Subject>(subject: &S, mut nodes: Vec<u16>) -> Lanes
    requires some { (S.content subject.now).every_lane ≡ false }
    requires exist { All (λ node. node < (S.content subject.now).nodes) nodes.items }
    ensures { (places : List ℕ) → nodes.items ≡ map (node_at (S.content subject.now)) places → result ≡ lanes_of (S.content subject.now) places }
{
    let _count = subject.execution().nodes();
    nodes.sort_unstable();
    nodes.dedup();
    Lanes { nodes }
}

// A lane for each node.
fn every_lane<S: Subject>(alloc: Global, subject: &S) -> Result<Lanes, AllocError>
    ensures { IfOk result (λ lanes. lanes ≡ places_below (S.content subject.now).nodes) }
{
    let mut nodes = Vec::new(alloc);
    for node in 0..subject.execution().nodes() {
        nodes.push(node)?;
    }
    Ok(Lanes { nodes })
}

/// The lanes of a picture that draws the events from one on before another.
///
/// It takes memory and time for these events, whatever the number of nodes, unless each node has a lane.
pub fn lanes_between<S: Subject>(
    alloc: Global,
    subject: &S,
    first: u32,
    end: u32,
) -> Result<Lanes, AllocError>
    requires ordered { first ≤ end }
    requires exist { end ≤ length (S.content subject.now).events }
    ensures { IfOk result (λ lanes. lanes ≡ lanes_of (S.content subject.now) (places_from first (end - first))) }
{
    if subject.has_every_lane() {
        return every_lane(alloc, subject);
    }
    let nodes = nodes_between(alloc, subject, first, end)?;
    nodes_exist(subject);
    Ok(in_order(subject, nodes))
}

/// The lanes of a picture that draws some events alone.
///
/// It takes memory and time for these events, whatever the number of nodes, unless each node has a lane.
pub fn lanes_at<S: Subject>(
    alloc: Global,
    subject: &S,
    events: &[EventId],
) -> Result<Lanes, AllocError>
    requires { All (λ e. e < length (S.content subject.now).events) (places_of events.now) }
    ensures { IfOk result (λ lanes. lanes ≡ lanes_of (S.content subject.now) (places_of events.now)) }
{
    if subject.has_every_lane() {
        return every_lane(alloc, subject);
    }
    let nodes = nodes_at(alloc, subject, events)?;
    nodes_exist(subject);
    Ok(in_order(subject, nodes))
}
