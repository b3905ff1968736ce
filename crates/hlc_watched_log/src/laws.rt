//! The laws of a watched log, as the contracts of functions that do nothing.

ghost use Rattle.hlc_watched_log.specs.Laws.{NamesTellApart, TellsAsWatched};

/// Of whatever records, the rows `cause` are those of what `hlc_watch` tells of the events that they add, one after another. So its laws hold of them:
/// whatever is forgotten, a cause is told of an event by its own record, that of the event before it at its node and that of its send, as soon as the
/// last of these has come; and where no more events come than messages are kept, none is missing.
pub fn told_as_watched()
    ensures { TellsAsWatched }
{}

/// The names of their messages tell these events' messages apart, as those laws ask: each is numbered by the first event that comes with its name.
pub fn names_tell_apart()
    ensures { NamesTellApart }
{}
