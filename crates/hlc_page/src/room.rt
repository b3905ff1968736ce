ghost use Rattle.std.specs.Prelude.{◌≡◌, ◌↔◌, ◌<◌, length, take};

use crate::status::PAGE_ROOM;

// Puts an answer at the front of a room, if it fits, and returns the status to report. Its length is told in any case.
pub(crate) fn put(answer: &[u8], status: u32, room: &mut [u8], told: &mut usize) -> u32
    requires { ¬ (status ≡ PAGE_ROOM) }
    ensures told { told.new ≡ length answer.now }
    ensures put { ¬ (result ≡ PAGE_ROOM) → (result ≡ status) × (take told.new room.new ≡ answer.now) }
    ensures room { result ≡ PAGE_ROOM ↔ length room.old < told.new }
    ensures unchanged { result ≡ PAGE_ROOM → room.new ≡ room.old }
{
    *told = answer.len();
    if answer.len() > room.len() {
        return PAGE_ROOM;
    }
    room[..answer.len()].copy_from_slice(answer);
    status
}
