/// What is told of the groups of a log's causes.
#[derive(Clone, Copy, Debug, PartialEq, Eq)]
pub enum GroupDetail {
    /// Nothing.
    Nothing,
    /// A row of each.
    Groups,
    /// A row of each, and below it one for each of its first three causes.
    Places,
}
