//! The laws of reordered logs, as contracts of functions that do nothing: an audit is a function of the events of its log, and not
//! of the order of its lines.
//!
//! A log in another order has the same events at each node in the same order, delivers the same sends, and claims the same stamps where
//! it tells stamps. The others are given alike.

ghost use Rattle.hlc_ordered_log.specs.Laws.{CausesAgree, CountsAgree, FindingsAgree, GivenStampsAgree, LogsAreReorderedTraces, MessagesAgree, NoCausesAreLeast, RearrangedLogsTellTheSame, ReorderingKeepsCauses, ReorderingKeepsFindings, ReorderingKeepsSkews, ReorderingKeepsVerdicts, SwapsAgree, UnitFactorsAgree, WrongAgrees};

/// The verdict on an event, what is found of it, and how it breaks the clock rule don't depend on the order in which events are
/// listed. An answer that names another event names the same one.
pub fn reordering_keeps_answers()
    ensures verdicts { ReorderingKeepsVerdicts }
    ensures findings { ReorderingKeepsFindings }
    ensures causes { ReorderingKeepsCauses }
{}

/// Nor does the skew between two nodes, or which message shows it.
pub fn reordering_keeps_skews()
    ensures { ReorderingKeepsSkews }
{}

/// Two logs that tell the same are such reorderings of one another, in whichever causal orders. So of each event the same is
/// found, the same events are causes, the same stand swapped, and the same messages carried another stamp than their sends.
pub fn logs_in_order_agree()
    ensures reordered { LogsAreReorderedTraces }
    ensures findings { FindingsAgree }
    ensures causes { CausesAgree }
    ensures swaps { SwapsAgree }
    ensures wrong { WrongAgrees }
{}

/// So do two logs with the same events, each with its line, in different orders. They have as many stamps with each verdict, as
/// many messages of each kind, and the same factor between units, if there is one.
pub fn rearranged_logs_agree()
    ensures same { RearrangedLogsTellTheSame }
    ensures counts { CountsAgree }
    ensures messages { MessagesAgree }
    ensures units { UnitFactorsAgree }
{}

/// The stamps that events without one are given don't depend on the order: however the same events are put in order, they have the
/// same stamps.
pub fn given_stamps_agree()
    ensures { GivenStampsAgree }
{}

/// Where no event is a cause, no stamp that is told rolls over, and each message carried what its send claims, the log claims the least
/// stamps.
pub fn no_causes_are_least()
    ensures { NoCausesAreLeast }
{}
