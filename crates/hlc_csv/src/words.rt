ghost use Rattle.std.specs.Prelude.{◌≡◌};
ghost use Rattle.hlc_csv.specs.Rows.{yes_or_no};

/// The word that says whether something holds.
pub fn yes_or_no(holds: bool) -> &'static [u8]
    ensures { result.now ≡ yes_or_no holds }
{
    if holds { b"yes" } else { b"no" }
}
