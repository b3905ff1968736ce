// Marks on events from a first one on.

ghost use Rattle.std.specs.Prelude.{◌≡◌, ℕ, ◌+◌, ◌<◌, ◌↔◌, ◌⊎◌, IfSome, IsTrue, false, length, slice_index_or};
ghost use Rattle.hlc_explain.specs.Marks.{IsMarkable, IsMarked};

use hlc_stamp::EventId;

/// Marks the event that a link names, unless it comes before the first.
pub(crate) fn mark(marks: &mut Vec<bool>, first: EventId, link: Option<EventId>)
    requires within { IfSome link (λ event. event.0 < first.0 + length marks.old.items) }
    ensures marked { (e : ℕ) → IsMarked first.0 marks.new.items e ↔ (IsMarked first.0 marks.old.items e ⊎ IsMarkable first.0 link e) }
    ensures len { length marks.new.items ≡ length marks.old.items }
{
    if let Some(event) = link {
        if event.0 >= first.0 {
            marks[(event.0 - first.0) as usize] = true;
        }
    }
}
