// Which column of a stamp is badly written. This is asked of bad records alone.

ghost use Rattle.std.specs.Prelude.{◌≡◌};
ghost use Rattle.hlc_log_text.specs.BadColumn.{bad_of_carried, bad_of_stamp};

use crate::log_column::LogColumn;
use crate::stamp_form::StampForm;
use hlc_csv::number;

// The column of a badly written stamp, by the first of its fields.
pub(crate) fn bad_of_stamp(form: StampForm, first: &[u8]) -> LogColumn
    ensures { result ≡ bad_of_stamp form first.now }
{
    match form {
        StampForm::Pair if number(first).is_some() => LogColumn::C,
        StampForm::Pair => LogColumn::L,
        StampForm::Dotted | StampForm::Packed(_) => LogColumn::Stamp,
    }
}

// The column of a badly written stamp that a message carried, by the first of its fields.
pub(crate) fn bad_of_carried(form: StampForm, first: &[u8]) -> LogColumn
    ensures { result ≡ bad_of_carried form first.now }
{
    match form {
        StampForm::Pair if number(first).is_some() => LogColumn::CarriedC,
        StampForm::Pair => LogColumn::CarriedL,
        StampForm::Dotted | StampForm::Packed(_) => LogColumn::Carried,
    }
}
