ghost use Rattle.hlc_packed.specs.Packed.{CanCount};

use crate::step_fault::StepFault;
use hlc_stamp::Stamp;

/// How many bits `c` has in a packed stamp: the low ones, below those of `l`.
#[derive(Clone, Copy, Debug, PartialEq, Eq)]
pub struct PackedBits {
    /// 1 to 32.
    pub bits: u32,
    ghost in_range: { CanCount bits },
}

impl PackedBits {
    ghost use Rattle.std.specs.Prelude.{◌≡◌, ◌≢◌, ◌↔◌, ◌+◌, ◌-◌, ◌^◌, ◌<◌, ◌≤◌, Err, IfOk, IfSome, IsOk, IsSome, IsTrue, max};
    ghost use Rattle.std.specs.Option.{SomeIff};
    ghost use Rattle.hlc_packed.specs.Packed.{IsPackable, first_at, packed, unpacked};
    ghost use Rattle.hlc_packed.specs.Steps.{HasNext, IsAllowedNumber, IsNextTooFar, IsPackedAhead, IsPackedMerge, IsPackedReading, IsPackedTick, IsPackedTooFar, bound_of};
    ghost use Rattle.hlc_packed.specs.declared.step_fault.StepFault.TheVariants as fault;

    /// So many bits, if they are 1 to 32.
    pub fn new(bits: u32) -> Option<PackedBits>
        ensures in_range { IsSome result ↔ CanCount bits }
        ensures bits { IfSome result (λ packed. packed.bits ≡ bits) }
    {
        if bits < 1 || bits > 32 {
            return None;
        }
        Some(PackedBits { bits })
    }

    /// The greatest `c` of so many bits.
    pub fn full(self) -> u32
        ensures { result ≡ 2 ^ self.bits - 1 }
    {
        (self.span() - 1) as u32
    }

    /// The stamp that a number packs.
    #[inline]
    pub fn unpack(self, number: u64) -> Stamp
        ensures { result ≡ unpacked self.bits number }
    {
        let c = number & (self.span() - 1);
        Stamp {
            l: number >> self.bits,
            c: c as u32,
        }
    }

    /// The number that packs a stamp, if its `c` has no more than these bits, and its `l` no more than the others of 64.
    #[inline]
    pub fn pack(self, stamp: Stamp) -> Option<u64>
        ensures { SomeIff result (IsPackable self.bits stamp) (packed self.bits stamp) }
    {
        if stamp.c > self.full() {
            return None;
        }
        let l = stamp.l.checked_mul(self.span())?;
        l.checked_add(u64::from(stamp.c))
    }

    /// The number of a send or a local event, after the number `old` of the node's last event, which is 0 before its first.
    ///
    /// Where `c` is full, the next number has the next `l`. To set no limit, let it be `u64::MAX`.
    pub fn tick(self, old: u64, reading: u64, limit: u64) -> Result<u64, StepFault>
        ensures ok { IsOk result ↔ (IsPackedReading self.bits reading × ¬ IsNextTooFar self.bits old reading limit × HasNext old) }
        ensures least { IfOk result (IsPackedTick self.bits old reading) }
        ensures within_limit { IfOk result (λ new. ¬ IsPackedTooFar self.bits new reading limit) }

        ensures reading { (result ≡ Err fault.Reading) ↔ ¬ IsPackedReading self.bits reading }
        ensures too_far { (result ≡ Err fault.ClockTooFar) ↔ (IsPackedReading self.bits reading × IsNextTooFar self.bits old reading limit) }
        ensures no_room { (result ≡ Err fault.NoRoom)
            ↔ (IsPackedReading self.bits reading × ¬ IsNextTooFar self.bits old reading limit × ¬ HasNext old) }
        ensures no_message { result ≢ Err fault.MessageTooFar }
    {
        let Some(first) = self.first_at(reading) else {
            return Err(StepFault::Reading);
        };
        if self.is_next_too_far(old, reading, limit) {
            return Err(StepFault::ClockTooFar);
        }
        if old == u64::MAX {
            return Err(StepFault::NoRoom);
        }
        Ok(first.max(old + 1))
    }

    /// The number of a delivery of a message that carries this number, after the number `old` of the node's last event, which is 0
    /// before its first.
    ///
    /// A full `c` and a limit are as in `tick`.
    pub fn merge(self, old: u64, message: u64, reading: u64, limit: u64) -> Result<u64, StepFault>
        ensures ok { IsOk result ↔ (IsPackedReading self.bits reading × ¬ IsNextTooFar self.bits old reading limit
            × ¬ IsNextTooFar self.bits message reading limit × HasNext old × HasNext message) }
        ensures least { IfOk result (IsPackedMerge self.bits old message reading) }
        ensures within_limit { IfOk result (λ new. ¬ IsPackedTooFar self.bits new reading limit) }

        ensures reading { (result ≡ Err fault.Reading) ↔ ¬ IsPackedReading self.bits reading }
        ensures clock_too_far { (result ≡ Err fault.ClockTooFar) ↔ (IsPackedReading self.bits reading × IsNextTooFar self.bits old reading limit) }
        ensures message_too_far { (result ≡ Err fault.MessageTooFar)
            ↔ (IsPackedReading self.bits reading × ¬ IsNextTooFar self.bits old reading limit × IsNextTooFar self.bits message reading limit) }
        ensures no_room { (result ≡ Err fault.NoRoom) ↔ (IsPackedReading self.bits reading × ¬ IsNextTooFar self.bits old reading limit
            × ¬ IsNextTooFar self.bits message reading limit × ¬ (HasNext old × HasNext message)) }
    {
        let Some(first) = self.first_at(reading) else {
            return Err(StepFault::Reading);
        };
        if self.is_next_too_far(old, reading, limit) {
            return Err(StepFault::ClockTooFar);
        }
        if self.is_next_too_far(message, reading, limit) {
            return Err(StepFault::MessageTooFar);
        }
        let above = old.max(message);
        if above == u64::MAX {
            return Err(StepFault::NoRoom);
        }
        Ok(first.max(above + 1))
    }

    /// The clock's number once it has seen a message with this number, without counting: the greater of both, unless the message is too far
    /// ahead of the reading.
    pub fn observe(self, old: u64, message: u64, reading: u64, limit: u64) -> Result<u64, StepFault>
        ensures ok { IsOk result ↔ (IsPackedReading self.bits reading × ¬ IsPackedTooFar self.bits message reading limit) }
        ensures greater { IfOk result (λ new. new ≡ max old message) }

        ensures reading { (result ≡ Err fault.Reading) ↔ ¬ IsPackedReading self.bits reading }
        ensures message_too_far { (result ≡ Err fault.MessageTooFar)
            ↔ (IsPackedReading self.bits reading × IsPackedTooFar self.bits message reading limit) }
    {
        if self.first_at(reading).is_none() {
            return Err(StepFault::Reading);
        }
        if self.is_too_far(message, reading, limit) {
            return Err(StepFault::MessageTooFar);
        }
        Ok(old.max(message))
    }

    /// The bound to make durable before a node gives a number that isn't below the bound before: above each number whose `l` is at most the
    /// window past the clock's. There is none where it has more than 64 bits.
    pub fn bound(self, clock: u64, window: u64) -> Option<u64>
        ensures { SomeIff result (bound_of self.bits clock window < 2 ^ 64) (bound_of self.bits clock window) }
    {
        let last = self.unpack(clock).l.checked_add(window)?;
        let l = last.checked_add(1)?;
        self.pack(Stamp { l, c: 0 })
    }

    /// Whether the `l` of a number is ahead of the reading by more than the limit.
    #[inline]
    pub fn is_too_far(self, number: u64, reading: u64, limit: u64) -> bool
        ensures { IsTrue result ↔ IsPackedTooFar self.bits number reading limit }
    {
        self.unpack(number).l.saturating_sub(reading) > limit
    }

    /// Whether an event with this number may have a lower one: `old` is the number of its node's event before, 0 for the first, and `message`
    /// is that of the message which it delivers, 0 if it delivers none.
    pub fn is_ahead(self, old: u64, message: u64, reading: u64, stamp: u64) -> bool
        ensures { IsTrue result ↔ IsPackedAhead self.bits old message reading stamp }
    {
        match stamp.checked_sub(1) {
            Some(before) => self.is_allowed(old, message, reading, before),
            None => false,
        }
    }

    // Whether an event may have this number.
    fn is_allowed(self, old: u64, message: u64, reading: u64, number: u64) -> bool
        ensures { IsTrue result ↔ IsAllowedNumber self.bits old message reading number }
    {
        let stamp = self.unpack(number);
        self.unpack(old).is_below(stamp)
            && self.unpack(message).is_below(stamp)
            && reading <= stamp.l
    }

    // The first number of a reading, if a clock may read this.
    #[inline]
    fn first_at(self, reading: u64) -> Option<u64>
        ensures { SomeIff result (IsPackedReading self.bits reading) (first_at self.bits reading) }
    {
        if reading == 0 {
            return None;
        }
        self.pack(Stamp { l: reading, c: 0 })
    }

    // Whether the l of the number after this one is ahead of the reading by more than the limit.
    #[inline]
    fn is_next_too_far(self, number: u64, reading: u64, limit: u64) -> bool
        ensures { IsTrue result ↔ IsNextTooFar self.bits number reading limit }
    {
        self.next_l(number).saturating_sub(reading) > limit
    }

    // The l of the number after this one, which may be past 64 bits.
    #[inline]
    fn next_l(self, number: u64) -> u64
        ensures { result ≡ (unpacked self.bits (number + 1)).l }
    {
        let Stamp { l, c } = self.unpack(number);
        if c == self.full() { l + 1 } else { l }
    }

    // How many values `c` can have.
    #[inline]
    fn span(self) -> u64
        ensures value { result ≡ 2 ^ self.bits }
        ensures some { 1 ≤ result }
        ensures most { result ≤ 2 ^ 32 }
    {
        1 << self.bits
    }
}
