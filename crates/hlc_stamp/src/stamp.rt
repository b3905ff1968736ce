ghost use Rattle.std.specs.Prelude.{◌↔◌, IsTrue};
ghost use Rattle.hlc_stamp.specs.Order.{IsBelow};

/// A hybrid logical clock's stamp (Kulkarni and others 2014, section 3), ordered by `l`, then by `c`.
///
/// A node that has no event yet has the stamp (0, 0).
#[derive(Clone, Copy, Debug, PartialEq, Eq, PartialOrd, Ord, Hash)]
pub struct Stamp {
    /// The logical part, in the units of the clock readings.
    pub l: u64,
    /// The counter that tells apart events of one `l`.
    pub c: u32,
}

impl Stamp {
    /// Whether this stamp comes before another one.
    #[inline]
    pub fn is_below(self, other: Stamp) -> bool
        ensures { IsTrue result ↔ IsBelow self other }
    {
        self < other
    }
}
