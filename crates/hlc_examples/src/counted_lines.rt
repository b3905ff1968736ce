// A caller of the jobs of `hlc_shared`.

ghost use Rattle.std.specs.Prelude.{◌≡◌, ◌==◌, IfOk, count_by, map};

use hlc_shared::{Fate, Work, run_jobs};
use std::alloc::Global;
use std::sync::Wait;
use std::thread::Threads;

/// Counts the line feeds of a text.
#[derive(Clone, Copy)]
pub struct LineCount;

impl Work<Vec<u8>, usize> for LineCount {
    ghost done = { λ _ text lines. lines ≡ count_by (λ b. b == 10) text.items };

    ghost shut = { λ _ _ _. ⊥ };

    fn work<R: Wait>(&self, _rt: &R, text: Vec<u8>) -> Result<usize, Fate> {
        Ok(text.iter().filter(|byte| **byte == b'\n').count())
    }
}

/// How many lines each text has, counted in a thread for each, in the order of the texts.
pub fn count_lines<R: Threads + Wait + Sync>(
    rt: &R,
    alloc: Global,
    texts: Vec<Vec<u8>>,
) -> Result<Vec<usize>, Fate>
    ensures { IfOk result (λ counts. counts.items ≡ map (λ text. count_by (λ b. b == 10) text.items) texts.items) }
{
    run_jobs(rt, alloc, &LineCount, texts)
}
