// Replicas in threads of their own, which follow lists of steps.

ghost use Rattle.std.specs.Prelude.{◌≡◌, ◌∷◌, [], IfErr, MatchOption, OnOk, map};
ghost use Rattle.hlc_core.specs.Timed.{timed_request_of};
ghost use Rattle.hlc_shared.specs.Replicas.{HasFollowed, HasRun, IsShutOut};

use crate::fate::Fate;
use crate::gate::Gate;
use crate::jobs::Work;
use crate::shared::Shared;
use hlc_core::{Refusal, Step};
use hlc_held::{Group, Seat};
use std::collections::VecDeque;
use std::sync::Wait;

/// A seat, and the steps that its node is asked.
#[derive(Drop)]
pub(crate) struct Job<L: Group> {
    pub(crate) seat: Seat<L>,
    pub(crate) steps: Vec<Step>,
}

/// What the thread of a replica does: it asks its steps in order, if the gate lets it in.
#[derive(Drop)]
pub(crate) struct Replicas<'a, L: Group, G> {
    pub(crate) shared: &'a Shared<L>,
    pub(crate) gate: &'a G,
}

impl<L: Group, G: Gate> Work<Job<L>, Seat<L>> for Replicas<'_, L, G> {
    ghost done = { λ w job seat. HasRun (G.may_answer w.gate.now) (map timed_request_of job.steps.items) job.seat seat };

    ghost shut = { λ w job node. IsShutOut (G.may_answer w.gate.now) job.seat node };

    fn work<R: Wait>(&self, rt: &R, job: Job<L>) -> Result<Seat<L>, Fate> {
        let Job { mut seat, steps } = job;
        let node = seat.node();
        if !self.gate.enter(rt, node) {
            return Err(Fate::Shut(node));
        }
        follow(rt, self.shared, &mut seat, steps)?;
        Ok(seat)
    }
}

// Asks each step in order, until one is out of memory.
fn follow<L: Group, R: Wait>(
    rt: &R,
    shared: &Shared<L>,
    seat: &mut Seat<L>,
    steps: Vec<Step>,
) -> Result<(), Fate>
    ensures node { OnOk result (seat.new.node ≡ seat.old.node) }
    ensures followed { OnOk result (HasFollowed (map timed_request_of steps.items) seat.old.log seat.new.log) }
    ensures not_shut { IfErr result (λ fate. fate ≡ Fate.Memory) }
{
    seat.reserve(steps.len())?;
    let mut rest = VecDeque::from_vec(steps);
    while let Some(step) = take_first(&mut rest) {
        ask(rt, shared, seat, step)?;
    }
    Ok(())
}

// Takes the first of some steps. Their room is given back by halves, since the log needs as much.
fn take_first(steps: &mut VecDeque<Step>) -> Option<Step>
    ensures { MatchOption result (steps.old.items ≡ []) (λ step. steps.old.items ≡ step ∷ steps.new.items) }
{
    let step = steps.pop_front();
    if steps.len() <= steps.capacity() / 2 {
        steps.shrink_to_fit();
    }
    step
}

// Asks one step, and passes over a refusal for another cause than memory.
fn ask<L: Group, R: Wait>(
    rt: &R,
    shared: &Shared<L>,
    seat: &mut Seat<L>,
    step: Step,
) -> Result<(), Fate>
    ensures node { OnOk result (seat.new.node ≡ seat.old.node) }
    ensures followed { OnOk result (HasFollowed (timed_request_of step ∷ []) seat.old.log seat.new.log) }
    ensures not_shut { IfErr result (λ fate. fate ≡ Fate.Memory) }
{
    let Step { reading, action } = step;
    match shared.act(rt, seat, reading, action) {
        Ok(_) => Ok(()),
        Err(Refusal::Memory) => Err(Fate::Memory),
        Err(_) => Ok(()),
    }
}
