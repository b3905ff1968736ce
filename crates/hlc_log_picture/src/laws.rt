//! The laws of the pictures of logs, as contracts of functions that do nothing.

ghost use Rattle.hlc_log_picture.specs.Laws.{FormsAreVerdicts, FormsTellWords, LegendTellsForms, LogsHaveTheirNodes, LogsSendFirst, NoDigitIsLost, RingsAreCauses, VerdictsFit};

/// Where receives tick, the form of a dot tells the verdict: it is the form of the verdict of `hlc_verdict` on its stamp, by those that its
/// event saw claimed, or, if the stamp is ahead and rolls over, a hexagon. These are the stamps that the log claims, if each message
/// carried the one that its send claims. No two verdicts have the same form, and the legend says of each which one it has.
pub fn forms_are_verdicts()
    ensures verdicts { FormsAreVerdicts }
    ensures words { FormsTellWords }
    ensures legend { LegendTellsForms }
{}

/// The word of each verdict fits its column.
pub fn verdicts_fit()
    ensures { VerdictsFit }
{}

/// Just the causes have rings: the events at which the clock rule was broken, and those whose message carried another stamp than its send claims.
pub fn rings_are_causes()
    ensures { RingsAreCauses }
{}

/// The digits in the heading of a column and those in a row below are together all digits of the `l` of the stamp that is claimed there, or of what the
/// clock read. If there are any in the heading, all these numbers have as many digits, so that rows compare as the numbers do.
pub fn no_digit_is_lost()
    ensures { NoDigitIsLost }
{}

/// In a log in order each send comes before its receives, and each event happens at a node that has a name, which is all that the laws of
/// diagrams ask for.
pub fn sends_come_first()
    ensures first { LogsSendFirst }
    ensures nodes { LogsHaveTheirNodes }
{}
