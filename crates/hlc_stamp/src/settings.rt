/// What a cluster is made with.
#[derive(Clone, Copy, Debug, PartialEq, Eq)]
pub struct Settings {
    /// How many nodes it has, `MIN_NODES` to `MAX_NODES`.
    pub nodes: u16,
    /// The most events that its history may have, `MIN_CAPACITY` to `MAX_CAPACITY`.
    pub capacity: u32,
    /// How far the `l` of an event may be ahead of its reading, in the units of readings, if there is a limit: any number.
    pub limit: Option<u64>,
}
