//! The laws of answers and reports, as contracts of functions that do nothing.

ghost use Rattle.hlc_log_audit.specs.Laws.{
  AnswersAgree,
  AuditsAgree,
  DriftsAgree,
  DriftsOfToldReadings,
  LeastStampsAreSound,
  LeastStampsReportClean,
  OutcomesAgree,
  RearrangedReportsAgree,
  ReorderingKeepsDrifts,
  ReorderingKeepsPaths,
  ReorderingKeepsTaints,
  ReorderingKeepsWays,
  ReportsAgree,
  ToldDriftsAreFound,
  WaysAgree,
};

/// The drift of a node is that of the first of its events that is furthest ahead of its clock, among those whose reading is told. If all are
/// told, it is what `hlc_explain::drift` answers.
pub fn drifts_are_of_told_readings()
    ensures found { ToldDriftsAreFound }
    ensures all_told { DriftsOfToldReadings }
{}

/// The way on which a claimed `l` came doesn't depend on the order in which events are listed.
pub fn reordering_keeps_ways()
    ensures ways { ReorderingKeepsWays }
    ensures logs { WaysAgree }
{}

/// Nor does the shortest path from one event to another that is found.
pub fn reordering_keeps_paths()
    ensures { ReorderingKeepsPaths }
{}

/// Nor which stamps the floor of an event raised.
pub fn reordering_keeps_taints()
    ensures { ReorderingKeepsTaints }
{}

/// Nor does the drift of a node, by the least stamps, which event shows it, or where that began.
pub fn reordering_keeps_drifts()
    ensures drifts { ReorderingKeepsDrifts }
    ensures logs { DriftsAgree }
{}

/// A log has one answer to each question, whichever causal order is found for it.
pub fn answers_agree()
    ensures { AnswersAgree }
{}

/// The report on a log that claims the least stamps counts each that it tells least, and names no cause. Such a log is sound, unless a drift
/// exceeds the limit.
pub fn least_stamps_audit_clean()
    ensures report { LeastStampsReportClean }
    ensures sound { LeastStampsAreSound }
{}

/// An audit is a function of its log: two audits of one log, by the same rules and with the same asked, have one outcome and leave the
/// same bytes, since whichever causal order is found, receives without a stamp are given the same ones, and the report and the answers have the
/// same rows. Logs with the same events in different orders have the same rows, too, up to their order; and logs that tell the same have one
/// outcome.
pub fn audits_agree()
    ensures audits { AuditsAgree }
    ensures reports { ReportsAgree }
    ensures rearranged { RearrangedReportsAgree }
    ensures outcomes { OutcomesAgree }
{}
