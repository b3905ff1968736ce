/// A unit in which a log counts time.
#[derive(Clone, Copy, Debug, PartialEq, Eq)]
pub enum TimeUnit {
    Seconds,
    Milliseconds,
    Microseconds,
    Nanoseconds,
    /// 2^-32 of a second, as in NTP's format of 64 bits. An `l` counts the high bits of that if a stamp packs `c` into the low ones: beside 4
    /// bits of `c`, as in uhlc's stamps, a second has 2^28 of its units.
    Ntp64,
}

impl TimeUnit {
    ghost use Rattle.std.specs.Prelude.{◌≡◌, ◌^◌, ◌≤◌};
    ghost use Rattle.hlc_log_text.specs.Units.{per_second};

    // How many of it a second has, where so many low bits of NTP's format are left to `c`.
    #[inline]
    pub(crate) fn per_second(self, packed: u32) -> u64
        requires { packed ≤ 32 }
        ensures value { result ≡ per_second packed self }
        ensures some { 1 ≤ result }
        ensures most { result ≤ 2 ^ 32 }
    {
        match self {
            TimeUnit::Seconds => 1,
            TimeUnit::Milliseconds => 1_000,
            TimeUnit::Microseconds => 1_000_000,
            TimeUnit::Nanoseconds => 1_000_000_000,
            TimeUnit::Ntp64 => 1 << (32 - packed),
        }
    }
}
