//! The laws of dots, their numbers, and names. Each is the contract of a function that does nothing.

ghost use Rattle.hlc_figures.specs.Columns.{FirstLaneHasRoom, LeftArrowsHaveRoom, NamesHaveRoom};

/// Whatever its number, a dot on the first lane doesn't reach over the left border, nor does a ring around it, nor an arrow
/// over a border that turns on its left.
pub fn first_lane_has_room()
    ensures dots { FirstLaneHasRoom }
    ensures arrows { LeftArrowsHaveRoom }
{}

/// A name of `NAME_ROOM` characters above the first lane doesn't reach over the left border, nor one above another lane to that of the next, nor one above
/// the last lane to the columns.
pub fn names_have_room()
    ensures { NamesHaveRoom }
{}
