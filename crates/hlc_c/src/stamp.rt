use hlc_stamp::Stamp;

/// A stamp as C sees it: 16 bytes, of which the last four are padding.
#[repr(C)]
#[derive(Clone, Copy)]
pub struct CStamp {
    /// The logical part, in the units of the clock readings.
    pub l: u64,
    /// The counter that tells apart events of one `l`.
    pub c: u32,
}

impl From<CStamp> for Stamp {
    ghost use Rattle.std.specs.Prelude.{◌≡◌};
    ghost use Rattle.hlc_c.specs.Stamp.{pair_of};

    ghost from_gives = { λ stamp r. r ≡ pair_of stamp };

    fn from(CStamp { l, c }: CStamp) -> Stamp {
        Stamp { l, c }
    }
}

impl From<Stamp> for CStamp {
    ghost use Rattle.std.specs.Prelude.{◌≡◌};
    ghost use Rattle.hlc_c.specs.Stamp.{pair_of};

    ghost from_gives = { λ stamp r. pair_of r ≡ stamp };

    fn from(Stamp { l, c }: Stamp) -> CStamp {
        CStamp { l, c }
    }
}
