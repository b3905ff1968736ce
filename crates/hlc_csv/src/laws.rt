//! The law of lines: the contract of a function that does nothing.

ghost use Rattle.std.specs.Prelude.{◌≡◌};
ghost use Rattle.hlc_csv.specs.Laws.{LinesAreTold};

use crate::found_record::LAST_LINE;

/// Each record begins on a later line than the one before it, so its own line is the one that is told of it, as far as lines are counted:
/// 2^24 below 2^32, so that the lines of as many records are numbers of 32 bits.
pub fn lines_are_told()
    ensures told { LinesAreTold }
    ensures last { LAST_LINE ≡ 4278190079 }
{}
