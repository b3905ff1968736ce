ghost use Rattle.std.specs.Prelude.{◌≡◌};
ghost use Rattle.hlc_log_audit.specs.OverLimit.{claimed_ahead};

use hlc_log::LogEvent;

// How far the `l` that an event claims is above its reading, or 0 if one of these isn't told: a stamp that was given claims nothing, and a
// reading that is taken from the claim says nothing of a clock.
pub(crate) fn claimed_ahead(event: LogEvent) -> u64
    ensures { result ≡ claimed_ahead event }
{
    if event.has_reading && event.has_stamp {
        event.stamp.l.saturating_sub(event.reading)
    } else {
        0
    }
}
