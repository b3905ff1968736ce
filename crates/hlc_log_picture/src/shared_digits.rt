// The first digits that the stamps and the readings of a log share.

ghost use Rattle.std.specs.Prelude.{◌≡◌, ◌<◌, ◌≤◌, length};
ghost use Rattle.hlc_ordered_log.specs.InOrder.{IsInOrder};
ghost use Rattle.hlc_log_picture.specs.SharedDigits.{first_digits_of, first_l, head_count, shared_by, shared_bytes, shared_digits, shared_with};

use hlc_diagram::{FirstDigits, digits};
use hlc_log::LogEvent;
use hlc_ordered_log::OrderedLog;
use hlc_stamp::EventId;
use itoa::Buffer;

// How many digits of a number stand in its row at least, and how many in the headings.
pub(crate) const LEAST_REST: u32 = 4;

pub(crate) const LEAST_HEAD: u32 = 4;

// How many first bytes two texts share.
fn shared_bytes(one: &[u8], other: &[u8]) -> usize
    ensures shared { result ≡ shared_bytes one.now other.now }
    ensures fits { result ≤ length one.now }
{
    match one {
        [] => 0,
        [first, rest @ ..] => match other {
            [] => 0,
            [second, others @ ..] => {
                if *first == *second {
                    shared_bytes(rest, others) + 1
                } else {
                    0
                }
            }
        },
    }
}

// How many first digits two numbers share, if they have the same number of digits.
fn shared_digits(one: u64, other: u64) -> u32
    ensures { result ≡ shared_digits one other }
{
    let (mut buffer, mut other_buffer) = (Buffer::new(), Buffer::new());
    let (text, other_text) = (buffer.format(one), other_buffer.format(other));
    if text.len() == other_text.len() {
        shared_bytes(text.as_bytes(), other_text.as_bytes()) as u32
    } else {
        0
    }
}

// How many both numbers of an event share with one number.
fn shared_with(number: u64, event: LogEvent) -> u32
    ensures { result ≡ shared_with number event }
{
    shared_digits(number, event.stamp.l).min(shared_digits(number, event.reading))
}

// How many all numbers of a log do.
fn shared_by_all(log: &OrderedLog, number: u64) -> u32
    requires { IsInOrder log.now }
    ensures { result ≡ shared_by log.now number (length log.now.events) }
{
    let mut shared = digits(number);
    for place in 0..log.len() {
        shared = shared.min(shared_with(number, log.event(EventId(place))));
    }
    shared
}

// How many of a number's digits stand in the headings, of so many that are shared.
fn head_count(number: u64, shared: u32) -> u8
    ensures { result ≡ head_count number shared }
{
    let count = shared.min(digits(number).saturating_sub(LEAST_REST));
    if count < LEAST_HEAD { 0 } else { count as u8 }
}

// The `l` of the first event.
fn first_l(log: &OrderedLog) -> u64
    requires { IsInOrder log.now }
    ensures { result ≡ first_l log.now }
{
    if log.len() == 0 {
        0
    } else {
        log.event(EventId(0)).stamp.l
    }
}

/// The digits that stand in the headings: as many as the `l` of all claimed stamps and all readings of the log share, but for some that
/// the rows keep.
pub(crate) fn first_digits(log: &OrderedLog) -> FirstDigits
    requires { IsInOrder log.now }
    ensures { result ≡ first_digits_of log.now }
{
    let of = first_l(log);
    FirstDigits {
        of,
        count: head_count(of, shared_by_all(log, of)),
    }
}
