//! The laws of groups, as contracts of functions that do nothing.

ghost use Rattle.hlc_log_groups.specs.Laws.{NoGroupIsEmpty, RulePairFollows};

/// The stamp that the clock rule gives comes directly after that of the event that it follows, or is the floor if it follows none.
pub fn rule_stamp_follows()
    ensures { RulePairFollows }
{}

/// No group is empty.
pub fn no_group_is_empty()
    ensures { NoGroupIsEmpty }
{}
