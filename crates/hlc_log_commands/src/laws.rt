//! A law of what is told of a log, as the contract of a function that does nothing.

ghost use Rattle.hlc_log_commands.specs.Laws.{GroupsAddUp};

/// The groups of a log have as many causes together as the report on it has rows of causes.
pub fn groups_add_up()
    ensures { GroupsAddUp }
{}
