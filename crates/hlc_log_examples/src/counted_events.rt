// A caller of `hlc_log_text`.

ghost use Rattle.std.specs.Prelude.{◌≡◌, IfSome, List, Some, length};
ghost use Rattle.hlc_csv.specs.Records.{AreAllOf};
ghost use Rattle.hlc_csv.specs.Rows.{Fields};
ghost use Rattle.hlc_log_text.specs.declared.stamp_form.StampForm.TheVariants.{Pair};
ghost use Rattle.hlc_log_text.specs.LogItem.{LogItem, events_in};
ghost use Rattle.hlc_log_text.specs.LogRules.{exact_rules};
ghost use Rattle.hlc_log_text.specs.ReadLog.{SayItems};

use hlc_log_text::{LogRules, NameKey, StampForm, read_log};
use hlc_stamp::MAX_CAPACITY;
use std::alloc::Global;

/// The number of the events of a log in memory, or none if it can't be read: how many of its records tell of one.
pub fn count_events(alloc: Global, text: &[u8]) -> Option<u32>
    ensures { IfSome result (λ count. (records : List Fields) × (items : List LogItem) × AreAllOf (Some text.now) records
        × SayItems (exact_rules Pair) records items × (count ≡ length (events_in items))) }
{
    let read = read_log(
        alloc,
        text,
        LogRules::exact(StampForm::Pair),
        MAX_CAPACITY,
        NameKey::fixed(),
    )
    .ok()?;
    Some(read.log().len())
}
