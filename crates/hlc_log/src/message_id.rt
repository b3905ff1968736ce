/// A message of a log, by its number: messages are numbered from 0, in the order in which the log first mentions them.
#[derive(Clone, Copy, Debug, PartialEq, Eq, Hash)]
pub struct MessageId(pub u32);
