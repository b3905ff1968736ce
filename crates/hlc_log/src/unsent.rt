// Messages that nobody sends.

ghost use Rattle.std.specs.Prelude.{◌≡◌, ◌≤◌, All, IfOk, if◌then◌else◌, length};
ghost use Rattle.hlc_log.specs.Events.{IsNumbered};
ghost use Rattle.hlc_log.specs.Slots.{kind_by, stored_events};
ghost use Rattle.hlc_log.specs.Unsent.{AreSentMarks, local_count, outside_count, taken_kind, with_unsent};

use crate::asides::Asides;
use crate::log::Log;
use crate::log_event::LogKind;
use crate::message_id::MessageId;
use crate::slot::{Role, Slot};
use crate::unsent_counts::UnsentCounts;
use hlc_pages::Pages;
use hlc_stamp::{EventId, MAX_CAPACITY, Stamp};
use std::alloc::{AllocError, Global};

// A mark for each message: whether some event sends it.
pub(crate) fn sent_messages(
    alloc: Global,
    log: &Log,
    messages: u32,
) -> Result<Vec<bool>, AllocError>
    requires { All (IsNumbered messages) log.now.events }
    ensures len { IfOk result (λ sent. length sent.items ≡ messages) }
    ensures marks { IfOk result (λ sent. AreSentMarks log.now.events sent.items) }
{
    let mut sent = vec![in alloc; false; messages as usize]?;
    for place in 0..log.len() {
        if let LogKind::Send(message) = log.kind_at(EventId(place)) {
            sent[message.0 as usize] = true;
        }
    }
    Ok(sent)
}

// Takes each event that receives a message without a mark as coming in from outside, if what it carried is told, and else, if asked, as local.
pub(crate) fn take_unmarked(
    slots: &mut Pages<Slot>,
    asides: &Asides,
    sent: &[bool],
    as_local: bool,
) -> UnsentCounts
    requires few { length slots.old.items ≤ MAX_CAPACITY }
    requires numbered { All (IsNumbered (length sent.now)) (stored_events asides.now slots.old.items) }
    requires marks { AreSentMarks (stored_events asides.now slots.old.items) sent.now }
    ensures len { length slots.new.items ≡ length slots.old.items }
    ensures events { stored_events asides.now slots.new.items ≡ with_unsent as_local (stored_events asides.now slots.old.items) }
    ensures outside { result.outside ≡ outside_count (stored_events asides.now slots.old.items) }
    ensures unsent { result.unsent ≡ local_count as_local (stored_events asides.now slots.old.items) }
{
    let mut outside = 0;
    let mut unsent = 0;
    for place in 0..slots.len() {
        let stamp = asides.carried_at(place);
        let slot = slots.at_mut(place);
        if slot.take_unmarked(sent, unsent_role(stamp, as_local)) {
            if stamp.is_some() {
                outside += 1;
            } else {
                unsent += 1;
            }
        }
    }
    UnsentCounts {
        outside,
        unsent: counted_if(as_local, unsent),
    }
}

// So many, if they count, or none.
fn counted_if(counts: bool, many: u32) -> u32
    ensures { result ≡ (if counts then many else 0) }
{
    if counts { many } else { 0 }
}

// What an event that receives such a message becomes, by what the message carried.
fn unsent_role(carried: Option<Stamp>, as_local: bool) -> Role
    ensures { (message : MessageId) → kind_by result message ≡ taken_kind as_local carried (LogKind.Receive message) }
{
    match carried {
        Some(_) => Role::Outside,
        None => if as_local { Role::Local } else { Role::Receive },
    }
}
