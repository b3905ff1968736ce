ghost use Rattle.std.specs.Prelude.{true, ◌≡◌, ◌*◌, ◌<◌, ◌≤◌, length, map, IfErr, IfOk, OnOk};
ghost use Rattle.hlc_core.specs.Request.{request_of};
ghost use Rattle.hlc_core.specs.Timed.{HaveLength, requests_in, timed_request_of};
ghost use Rattle.rand_pcg.specs.Lcg.{advance};
ghost use Rattle.rand_pcg.specs.Pcg.{multiplier_64};
ghost use Rattle.hlc_seeded.specs.Faults.{IsFaultOfStorm};
ghost use Rattle.hlc_seeded.specs.Storm.{are_settings, choice_for, draw_of, request_of_choice, script_of, storm_of, value_for, word_at};

use crate::draw::{Choice, Draw};
use crate::storm_fault::StormFault;
use hlc_core::{Action, Step};
use hlc_stamp::{MAX_NODES, MAX_STEPS, MIN_NODES, MIN_STEPS};
use itoa::Buffer;
use rand_core::SeedableRng;
use rand_pcg::Lcg64Xsh32;
use std::alloc::{AllocError, Global};

// The value of a step, which names it.
fn value(alloc: Global, node: u16, step: u32) -> Result<Vec<u8>, AllocError>
    ensures { IfOk result (λ value. value.items ≡ value_for node step) }
{
    let (mut node_digits, mut step_digits) = (Buffer::new(), Buffer::new());
    let node = node_digits.format(node).as_bytes();
    let step = step_digits.format(step).as_bytes();
    let mut value = Vec::with_capacity(alloc, node.len() + step.len() + 2)?;
    value.push(b'v')?;
    value.extend_from_slice(node)?;
    value.push(b'.')?;
    value.extend_from_slice(step)?;
    Ok(value)
}

// What a step asks, if the latest write or erasure before it was of key `latest`.
fn action(
    alloc: Global,
    draw: Draw,
    nodes: u16,
    node: u16,
    step: u32,
    latest: [u8; 2],
) -> Result<Action, AllocError>
    requires enough { 2 ≤ nodes }
    requires exists { node < nodes }
    ensures { IfOk result (λ action. request_of action ≡ request_of_choice (choice_for step draw.b) nodes node step draw.a latest) }
{
    let key = draw.key();
    Ok(match draw.choice(step) {
        Choice::Write => Action::Write {
            key: Vec::from_slice(alloc, &key)?,
            value: value(alloc, node, step)?,
        },
        Choice::Erase => Action::Erase {
            key: Vec::from_slice(alloc, &key)?,
        },
        Choice::Send => Action::Send {
            to: draw.target(nodes, node),
            key: Vec::from_slice(alloc, &latest)?,
        },
        Choice::Pull => Action::DeliverOrWrite {
            key: Vec::from_slice(alloc, &key)?,
            value: value(alloc, node, step)?,
        },
    })
}

// The steps of a node, by the generator's next words.
fn script(
    alloc: Global,
    generator: &mut Lcg64Xsh32,
    nodes: u16,
    node: u16,
    steps: u32,
) -> Result<Vec<Step>, AllocError>
    requires enough { 2 ≤ nodes }
    requires exists { node < nodes }
    ensures script { IfOk result (λ list. map timed_request_of list.items ≡ script_of (draw_of (word_at generator.old)) nodes steps node) }
    ensures rest { OnOk result (generator.new ≡ advance 64 multiplier_64 (2 * steps) generator.old) }
{
    let mut list = Vec::with_capacity(alloc, steps as usize)?;
    let mut latest = [0; 2];
    for step in 0..steps {
        let draw = Draw::next(generator);
        let action = action(alloc, draw, nodes, node, step, latest)?;
        if draw.choice(step).is_update() {
            latest = draw.key();
        }
        let reading = draw.reading(step);
        list.push(Step { reading, action })?;
    }
    Ok(list)
}

// The steps of each node.
fn scripts(alloc: Global, seed: u64, nodes: u16, steps: u32) -> Result<Vec<Vec<Step>>, AllocError>
    requires { 2 ≤ nodes }
    ensures { IfOk result (λ scripts. requests_in scripts.items ≡ storm_of seed nodes steps) }
{
    let mut generator = Lcg64Xsh32::seed_from_u64(seed);
    let mut scripts = Vec::with_capacity(alloc, nodes as usize)?;
    for node in 0..nodes {
        scripts.push(script(alloc, &mut generator, nodes, node, steps)?)?;
    }
    Ok(scripts)
}

/// Seeded scripts: for each node, in order, a list of `steps` steps, drawn by PCG XSH RR 64/32 from the seed.
///
/// At step k of a node, the clock reads 1,000 + 10 k and up to 63 more. The step writes or erases one of four keys, or sends the
/// entry of the key that its node last wrote or erased to another node, or delivers the oldest message to its node or, if there is
/// none, writes.
/// However the nodes' steps are interleaved, none of them is refused by a cluster that has `nodes` nodes, a capacity of
/// `nodes * steps` or more, and no drift limit. The answer is BadSettings if there are fewer than 2 or more than 64 nodes, or fewer
/// than 1 or more than 16,384 steps.
pub fn storm(alloc: Global, seed: u64, nodes: u16, steps: u32) -> Result<Vec<Vec<Step>>, StormFault>
    ensures settings { OnOk result (are_settings nodes steps ≡ true) }
    ensures scripts { IfOk result (λ scripts. requests_in scripts.items ≡ storm_of seed nodes steps) }
    ensures one_each { IfOk result (λ scripts. length scripts.items ≡ nodes) }
    ensures steps { IfOk result (λ scripts. HaveLength steps (requests_in scripts.items)) }
    ensures fault { IfErr result (IsFaultOfStorm nodes steps) }
{
    if nodes < MIN_NODES || nodes > MAX_NODES || steps < MIN_STEPS || steps > MAX_STEPS {
        return Err(StormFault::BadSettings);
    }
    Ok(scripts(alloc, seed, nodes, steps)?)
}
