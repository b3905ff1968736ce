use crate::action::Action;

/// A step of a list that a node works off: what it is asked, and the reading at which it is asked.
#[derive(Drop)]
pub struct Step {
    /// What the node's clock reads, 1 to `MAX_READING`.
    pub reading: u64,
    /// What is asked.
    pub action: Action,
}
