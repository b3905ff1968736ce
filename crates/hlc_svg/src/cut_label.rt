// Bytes as text of a picture, cut in the middle where there is no room for all.

ghost use Rattle.std.specs.Prelude.{◌≡◌, ◌++◌, ◌<◌, OnOk, drop, length, string_bytes};
ghost use Rattle.hlc_svg.specs.CutLabel.{cut_text, end_within, fits};

use crate::label::{label_width, put_label};
use std::alloc::AllocError;

// Whether there is room for all of some bytes. Those that are cut would be wider with two characters more.
#[tactic(auto, unfolding(crate::specs::CutLabel::fits))]
fn fits(bytes: &[u8], room: u8) -> bool
    ensures { result ≡ fits room bytes.now }
{
    label_width(bytes, u16::from(room) + 2) <= u32::from(room)
}

// The bytes after the first.
fn tail(bytes: &[u8]) -> &[u8]
    requires { 0 < length bytes.now }
    ensures { result.now ≡ drop 1 bytes.now }
{
    &bytes[1..]
}

// The longest end of some bytes that there is room for.
fn end_within(bytes: &[u8], room: u8) -> &[u8]
    ensures { result.now ≡ end_within room bytes.now }
{
    let mut end = bytes;
    'end: while !fits(end, room) {
        end = tail(end);
    }
    end
}

/// Adds bytes as they are shown, if there is room for all of them, and else their beginning and their end, with two dots between.
pub fn put_cut_label(text: &mut String, bytes: &[u8], room: u8) -> Result<(), AllocError>
    ensures { OnOk result (string_bytes text.new ≡ string_bytes text.old ++ cut_text room bytes.now) }
{
    if fits(bytes, room) {
        return put_label(text, bytes, u16::from(room));
    }
    let side = room.saturating_sub(2) / 2;
    put_label(text, bytes, u16::from(side))?;
    put_label(text, end_within(bytes, side), u16::from(side))
}
