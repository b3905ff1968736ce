ghost use Rattle.std.specs.Prelude.{◌≡◌, ◌≤◌};
ghost use Rattle.hlc_ordered_log.specs.UnitFactor.{are_scaled, is_scaled, tells_both, unit_factor};

use crate::ordered_log::OrderedLog;
use hlc_log::LogEvent;
use hlc_stamp::EventId;

/// How many units of `l` make one of the readings, if they look as if they had different units: at each event of which the log tells both, `l` is
/// 1,000, 1,000,000 or 1,000,000,000 times the reading, to within a tenth.
///
/// It goes over the events at most three times, and takes no memory.
pub fn unit_factor(log: &OrderedLog) -> Option<u32>
    ensures { result ≡ unit_factor log.now.events }
{
    if are_scaled(log, 1_000) {
        Some(1_000)
    } else if are_scaled(log, 1_000_000) {
        Some(1_000_000)
    } else if are_scaled(log, 1_000_000_000) {
        Some(1_000_000_000)
    } else {
        None
    }
}

// Whether `l` is so many times the reading at each event of which both are told, and there is one.
fn are_scaled(log: &OrderedLog, factor: u32) -> bool
    ensures { result ≡ are_scaled factor log.now.events }
{
    let mut told: u32 = 0;
    let mut unscaled: u32 = 0;
    for place in 0..log.len() {
        let event = log.at(EventId(place));
        if tells_both(event) {
            told += 1;
        }
        if tells_both(event) && !is_scaled(event, factor) {
            unscaled += 1;
        }
    }
    told > 0 && unscaled == 0
}

// Whether a log tells both the reading and the stamp of an event.
fn tells_both(event: LogEvent) -> bool
    ensures { result ≡ tells_both event }
{
    event.has_reading && event.has_stamp
}

// Whether `l` of an event's stamp is so many times its reading, to within a tenth.
fn is_scaled(event: LogEvent, factor: u32) -> bool
    ensures { result ≡ is_scaled factor event }
{
    let expected = u128::from(factor) * u128::from(event.reading);
    let l = 10 * u128::from(event.stamp.l);
    9 * expected <= l && l <= 11 * expected
}
