ghost use Rattle.std.specs.Prelude.{◌≡◌, min};
ghost use Rattle.hlc_csv.specs.Number.{greatest_event};

use hlc_stamp::EventId;

/// The number of an event, as a script writes it. It may be larger than that of any event.
#[derive(Clone, Copy)]
pub struct EventNumber(pub u64);

impl EventNumber {
    /// The event of this number. The greatest `EventId`, which no history has, stands for all larger numbers.
    pub(crate) fn event(self) -> EventId
        ensures { result.0 ≡ min self.0 greatest_event }
    {
        EventId(u32::try_from(self.0).unwrap_or(u32::MAX))
    }
}
