ghost use Rattle.std.specs.Prelude.{◌≡◌};
ghost use Rattle.hlc_ordered_log.specs.Counts.{AreCounted, CanCountFinding, are_all_ahead, no_findings, with_finding};

use crate::ordered_log::OrderedLog;
use hlc_causes::Finding;
use hlc_stamp::EventId;
use hlc_verdict::Verdict;

/// How many of the stamps that a log tells have each verdict.
#[derive(Clone, Copy, PartialEq, Eq)]
pub struct Counts {
    /// Behind their readings.
    pub behind: u32,
    /// Not above a direct predecessor's.
    pub not_above: u32,
    /// Less than the least stamp.
    pub low: u32,
    /// The least stamp.
    pub least: u32,
    /// Greater than the least stamp, and not rolled over.
    pub ahead: u32,
    /// Greater than the least stamp, since `c` was full.
    pub rolled_over: u32,
}

impl Counts {
    // No finding.
    fn new() -> Counts
        ensures { result ≡ no_findings }
    {
        Counts {
            behind: 0,
            not_above: 0,
            low: 0,
            least: 0,
            ahead: 0,
            rolled_over: 0,
        }
    }

    /// Whether all stamps that the log tells are ahead, and there is one.
    pub fn are_all_ahead(self) -> bool
        ensures { result ≡ are_all_ahead self }
    {
        self.ahead > 0
            && self.behind == 0
            && self.not_above == 0
            && self.low == 0
            && self.least == 0
            && self.rolled_over == 0
    }

    // Counts one finding more, if there is one.
    fn add(&mut self, finding: Option<Finding>)
        requires { CanCountFinding self.old }
        ensures { self.new ≡ with_finding self.old finding }
    {
        match finding {
            None => {}
            Some(Finding::Judged(Verdict::Behind)) => self.behind += 1,
            Some(Finding::Judged(Verdict::NotAbove(_))) => self.not_above += 1,
            Some(Finding::Judged(Verdict::Low(_))) => self.low += 1,
            Some(Finding::Judged(Verdict::Least)) => self.least += 1,
            Some(Finding::Judged(Verdict::Ahead(_))) => self.ahead += 1,
            Some(Finding::RolledOver) => self.rolled_over += 1,
        }
    }
}

/// How many of the stamps that a log tells have each verdict. `full` is the greatest `c` that their form can write.
///
/// It goes over the events once, and takes no memory.
pub fn count_findings(log: &OrderedLog, full: u32) -> Counts
    ensures { AreCounted log.now full result }
{
    let mut counts = Counts::new();
    for position in 0..log.len() {
        counts.add(log.finding(EventId(position), full));
    }
    counts
}
