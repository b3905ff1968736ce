ghost use Rattle.std.specs.Prelude.{◌≡◌, ℕ, ◌++◌, ◌∷◌, ◌<◌, [], IfErr, IfOk, vec_len};
ghost use Rattle.std.specs.Thread.{IsSync};
ghost use Rattle.hlc_shared.specs.Endings.{AreOfBoth, HaveEnded, IsDueTo};

use crate::fate::Fate;
use std::alloc::Global;
use std::snapshot::Snapshot;
use std::sync::Wait;
use std::thread;
use std::thread::{Promise, Threads};

/// What a thread does with its job.
pub trait Work<T, U> {
    /// What is true of a job and what came of it.
    ghost done: { Self → T → U → Type 0 };

    /// What is true of a job whose node, this one, was shut out.
    ghost shut: { Self → T → ℕ → Type 0 };

    /// Does one job.
    fn work<R: Wait>(&self, rt: &R, job: T) -> Result<U, Fate>
        ensures done { IfOk result (λ answer. done self.now job answer) }
        ensures shut { IfErr result (λ fate. IsDueTo (shut self.now job) fate) };
}

// Promises how some jobs end.
#[derive(Drop)]
struct Ending<'a, T, W> {
    work: &'a W,
    jobs: Snapshot<Vec<T>>,
}

impl<'a, T, U, W: Work<T, U>> Promise<Result<Vec<U>, Fate>> for Ending<'a, T, W> {
    ghost kept_by = { λ p answers. HaveEnded (W.done p.work.now) (W.shut p.work.now) p.jobs.value.items answers };
}

/// Does each job in a thread of its own, this one among them, and gives what came of them, in order.
///
/// Even if it gives nothing, all threads have ended.
pub fn run_jobs<T: Send + Drop, U: Send + Drop, W: Work<T, U> + Sync, R: Threads + Wait + Sync>(
    rt: &R,
    alloc: Global,
    work: &W,
    jobs: Vec<T>,
) -> Result<Vec<U>, Fate>
    ensures { HaveEnded (W.done work.now) (W.shut work.now) jobs.items result }
{
    if jobs.len() < 2 {
        return run_last(rt, alloc, work, jobs);
    }
    let mut front = jobs;
    let half = front.len() / 2;
    let back = front.split_off(half)?;
    let seen = Snapshot::of(&back);
    thread::scope(
        thread::scope_env(),
        rt,
        |scope| -> Result<Vec<U>, Fate>
            requires { IsSync R.row × (0 < vec_len front) × (0 < vec_len back) × (seen.value ≡ back) }
            ensures { HaveEnded (W.done work.entry.now) (W.shut work.entry.now) (front.items ++ back.items) result }
        {
            let there = move || -> Result<Vec<U>, Fate>
                requires { IsSync R.row }
                ensures { HaveEnded (W.done work.entry.now) (W.shut work.entry.now) back.items result }
            { run_jobs(rt, alloc, work, back) };
            let started = scope.spawn_with(Ending { work, jobs: seen }, there);
            let here = run_jobs(rt, alloc, work, front);
            let Ok(child) = started else {
                return Err(Fate::Memory);
            };
            both(here, child.join(rt))
        },
    )
}

// What came of two halves.
fn both<T: Drop>(a: Result<Vec<T>, Fate>, b: Result<Vec<T>, Fate>) -> Result<Vec<T>, Fate>
    ensures { AreOfBoth a b result }
{
    match (a, b) {
        (Ok(mut x), Ok(mut y)) => {
            x.append(&mut y)?;
            Ok(x)
        }
        (Err(one), Err(two)) => Err(one.or_worse(two)),
        (Err(one), Ok(_)) => Err(one),
        (Ok(_), Err(two)) => Err(two),
    }
}

// Does one job, or none, in this thread.
fn run_last<T: Drop, U: Drop, W: Work<T, U>, R: Wait>(
    rt: &R,
    alloc: Global,
    work: &W,
    mut jobs: Vec<T>,
) -> Result<Vec<U>, Fate>
    requires { vec_len jobs < 2 }
    ensures { HaveEnded (W.done work.now) (W.shut work.now) jobs.items result }
{
    match jobs.pop() {
        Some(job) => run_one(rt, alloc, work, job),
        None => Ok(Vec::new(alloc)),
    }
}

// Does one job in this thread.
fn run_one<T: Drop, U: Drop, W: Work<T, U>, R: Wait>(
    rt: &R,
    alloc: Global,
    work: &W,
    job: T,
) -> Result<Vec<U>, Fate>
    ensures { HaveEnded (W.done work.now) (W.shut work.now) (job ∷ []) result }
{
    let answer = work.work(rt, job)?;
    one_answer(alloc, answer)
}

// A list of one.
fn one_answer<U: Drop>(alloc: Global, answer: U) -> Result<Vec<U>, Fate>
    ensures answer { IfOk result (λ answers. answers.items ≡ answer ∷ []) }
    ensures memory { IfErr result (λ fate. fate ≡ Fate.Memory) }
{
    let mut answers = Vec::new(alloc);
    match answers.push(answer) {
        Ok(()) => Ok(answers),
        Err(_) => Err(Fate::Memory),
    }
}
