ghost use Rattle.std.specs.Prelude.{◌≡◌, ◌^◌, ◌<◌};
ghost use Rattle.hlc_causality.specs.LeastFeasible.{next_pair};

use hlc_stamp::Stamp;

/// The greatest `c` of a floor that an event has of its own: 2^31 - 1. So no least stamp above it needs more than 32 bits for its `c`.
pub const MAX_FLOOR_C: u32 = 2_147_483_647;

/// What a clock rule asks of the stamp of an event.
#[derive(Clone, Copy, Debug, PartialEq, Eq)]
pub struct EventRule {
    /// Its floor: it has to be at least this.
    pub floor: Stamp,
    /// Whether it has to be above those directly before the event, not only at least these.
    pub ticks: bool,
}

impl EventRule {
    /// The least stamp that may come directly after another one, whatever the floor.
    pub fn after(self, stamp: Stamp) -> Stamp
        requires { (next_pair self.ticks stamp).c < 2 ^ 32 }
        ensures { result ≡ next_pair self.ticks stamp }
    {
        if self.ticks {
            Stamp {
                l: stamp.l,
                c: stamp.c + 1,
            }
        } else {
            stamp
        }
    }
}
