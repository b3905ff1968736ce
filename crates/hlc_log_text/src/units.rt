use crate::stamp_form::StampForm;
use crate::time_unit::TimeUnit;

/// In which units a log counts time where readings have another one than `l`.
#[derive(Clone, Copy, Debug, PartialEq, Eq)]
pub struct Units {
    /// That of readings.
    pub reading: TimeUnit,
    /// That of `l`.
    pub l: TimeUnit,
}

impl Units {
    ghost use Rattle.std.specs.Prelude.{◌≡◌};
    ghost use Rattle.hlc_log_text.specs.Units.{converted};

    // A reading in the unit of `l`, with stamps in this form: whole units, and one at least.
    #[inline]
    pub(crate) fn convert(self, form: StampForm, reading: u64) -> u128
        ensures { result ≡ converted form self reading }
    {
        let reading = u128::from(reading);
        let l_per_second = u128::from(self.l.per_second(form.packed_bits()));
        let readings_per_second = u128::from(self.reading.per_second(0));
        let whole = reading * l_per_second / readings_per_second;
        whole.max(1)
    }
}
