// A caller of the stamp forms of `hlc_log_text`.

ghost use Rattle.std.specs.Prelude.{◌≡◌};
ghost use Rattle.hlc_log_text.specs.StampForms.{packed_stamp};

use hlc_csv::number;
use hlc_log_text::PackedBits;
use hlc_stamp::Stamp;

/// The stamp that a field packs as YugabyteDB does, in one number with `c` in its 12 low bits.
pub fn stamp_of_field(field: &[u8]) -> Option<Stamp>
    ensures { result ≡ packed_stamp 12 field.now }
{
    let bits = PackedBits::new(12)?;
    Some(bits.unpack(number(field)?))
}
