//! The laws of causes, as contracts of functions that do nothing, over any events, whatever their floors and whichever of them tick,
//! and any claimed stamps.
//!
//! A cause looks at the claimed stamps of an event and of its direct predecessors alone; the laws say what causes and rollovers
//! stamps tell of the whole log.

ghost use Rattle.hlc_causes.specs.CauseLaws.{AheadIsAlone, AheadNamesTheRulesStamp, BehindIsCause, CausesAreLocal, CausesAreNamed, CausesAreUnique, CausesBreakTheRule, CausesExplainVerdicts, GivenIsNoCause, KeptAfterPrevious, LowHeardOfDisorder, LowIsCauseIfAhead, NoCauseIsLeast, NoCauseKeepsRule, NoEventsAreLeast, NotAboveIsCause, VerdictsAreThoseOfTraces};

/// Each event has one answer: the rules that it breaks. It breaks none exactly if its claimed stamp is the least that can be written
/// there. And the causes are just the events whose claimed stamp is neither a rollover nor the least that isn't below the floor and is
/// above those claimed at the direct predecessors, or, where the event doesn't tick, not below them.
pub fn one_answer_each()
    ensures exists { CausesAreNamed }
    ensures unique { CausesAreUnique }
    ensures kept { NoCauseKeepsRule }
    ensures breaks_rule { CausesBreakTheRule }
{}

/// Causes are local: what `LocalEvent::causes` says of an event's own stamp, of those claimed at its direct predecessors, of its floor and of
/// whether it ticks is what the event breaks, whatever else the log claims.
pub fn causes_are_local()
    ensures { CausesAreLocal }
{}

/// An event keeps the rule exactly if `keeps_after` says so of it and its own previous event.
pub fn kept_after_previous()
    ensures { KeptAfterPrevious }
{}

/// What is ahead is neither behind nor not above a direct predecessor.
pub fn ahead_is_alone()
    ensures { AheadIsAlone }
{}

/// The stamp that `Ahead` names is the one that the clock rule gives, or, if that one's `c` is too great to be written, the one
/// with the next `l` and a `c` of 0.
pub fn ahead_names_the_rules_stamp()
    ensures { AheadNamesTheRulesStamp }
{}

/// There is no cause and no rollover exactly if the claimed stamps are the least that keep to floors and ticks.
pub fn no_cause_is_least()
    ensures { NoCauseIsLeast }
{}

/// Whatever is wrong with a stamp has a cause in its past: an event whose verdict isn't Least is a cause or a rollover, or one that is
/// happened before it.
pub fn causes_explain_verdicts()
    ensures { CausesExplainVerdicts }
{}

/// An event with a verdict of Behind or NotAbove is itself a cause, the first of them being of just that kind, and the other way round.
pub fn disorder_is_its_own_cause()
    ensures behind { BehindIsCause }
    ensures not_above { NotAboveIsCause }
{}

/// An event with a verdict of Low may be a cause, too. It is one exactly if its stamp, though less than the least one, is greater than
/// the least that could be written after those claimed before it: it is Ahead of that one. And it is never where all began: an
/// event that happened before it has a verdict of Behind or NotAbove.
pub fn low_is_cause_if_ahead()
    ensures cause { LowIsCauseIfAhead }
    ensures heard { LowHeardOfDisorder }
{}

/// A stamp that `stamp_given` gives is no cause, if any stamp may stand there: one that isn't below the floor, and may come directly after
/// those claimed before it.
pub fn given_is_no_cause()
    ensures { GivenIsNoCause }
{}

/// The verdicts are those of `hlc_verdict` on a trace with these events and these stamps, if each event ticks.
pub fn verdicts_are_those_of_traces()
    ensures { VerdictsAreThoseOfTraces }
{}

/// Before the first event all stamps are the least ones, so `push_least` can begin with a new execution.
pub fn no_events_are_least()
    ensures { NoEventsAreLeast }
{}
