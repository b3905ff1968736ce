/// The call was carried out.
pub const HLC_OK: u32 = 0;

/// The reading is 0 or above 2^63 - 1.
pub const HLC_READING: u32 = 1;

/// The new stamp would have the `l` of a clock or a message whose `c` is 2^32 - 1, the greatest.
pub const HLC_NO_ROOM: u32 = 2;

/// The clock or the message is ahead of the reading by more than the limit.
pub const HLC_TOO_FAR: u32 = 3;

/// There aren't as many places for verdicts as claims.
pub const HLC_LENGTHS: u32 = 4;

/// A claim is one that no trace has in its place.
pub const HLC_BAD_TRACE: u32 = 5;

/// An allocation was refused.
pub const HLC_MEMORY: u32 = 6;

/// The number of bits for `c` is 0 or above 32.
pub const HLC_BITS: u32 = 7;

/// A stamp has more bits than a packed one has room for.
pub const HLC_WIDE: u32 = 8;

/// The message is ahead of the reading by more than the limit.
pub const HLC_MESSAGE_TOO_FAR: u32 = 9;

/// The text isn't one of a stamp.
pub const HLC_TEXT: u32 = 10;
