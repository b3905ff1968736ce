use hlc_watch::FileLine;

// A message, by what the clocks read at its two ends, as the message that shows a skew.
#[derive(Clone, Copy)]
pub(crate) struct ShownSkew {
    pub(crate) sent_at: u64,
    pub(crate) received_at: u64,
    pub(crate) send: FileLine,
    pub(crate) receive: FileLine,
}
