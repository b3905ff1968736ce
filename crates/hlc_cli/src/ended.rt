/// How it ended that the arguments of a command line were performed.
#[derive(Clone, Copy, Debug, PartialEq, Eq)]
pub struct Ended {
    /// The exit status.
    pub status: u8,
    /// Whether all was written that there is to tell the user: the line of a fault or of a note, if there was one.
    pub told: bool,
}
