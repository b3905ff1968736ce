use crate::counts::Counts;
use hlc_arena::Arena;

/// What a run leaves.
#[derive(Drop)]
pub struct Ran {
    /// What came of the script.
    pub counts: Counts,
    /// The events of the run, with their stamps.
    pub history: Arena,
}
