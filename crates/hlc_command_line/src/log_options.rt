// How a log is read and audited.

ghost use Rattle.std.specs.Prelude.{IfErr, IfOk, codes, option_map, ◌≡◌};
ghost use Rattle.clap.specs.Words.{found_of, rows_of};
ghost use Rattle.hlc_command_line.specs.NumberOption.{HasNumber, IsOptionalNumber};
ghost use Rattle.hlc_command_line.specs.LineOption.{HasFlag, HaveOptions, IsOtherWord, IsWordOf};
ghost use Rattle.hlc_command_line.specs.JsonOptions.{IsSyntaxOf, jsonl};
ghost use Rattle.hlc_command_line.specs.Line.{AreAuditOptions, AreLogRules, AreTwoForms, IsAuditMistake, IsFormOf, IsNoReceives, IsNumberOr, IsNoOutput, IsOutputOf, IsReceivesOf, IsRulesMistake, all_faults, dotted, lenient, log_options, packed, tolerance, unsent};

use crate::fault_option::fault_rule;
use crate::line_fault::LineFault;
use crate::line_order::{AuditOptions, OutputForm};
use crate::option_value::{drift_limit, flag};
use crate::resent_option::resent;
use crate::unit_options::units;
use clap::ArgMatches;
use hlc_causality::Receives;
use hlc_log_text::{LogRules, PackedBits, RecordSyntax, StampForm};

// The number of bits in which `c` is packed, of a subcommand that has the option.
fn packed_number(options: &ArgMatches<'_>) -> Option<u32>
    requires { HasNumber (rows_of (found_of options.now)) packed }
    ensures { IsOptionalNumber (rows_of (found_of options.now)) packed result }
{
    options.get_one::<u32>("packed")
}

// The bits in which `c` is packed, of a subcommand that has the option.
#[tactic(auto, using(crate::proofs::LineFacts::bits_are))]
fn packed_bits(options: &ArgMatches<'_>) -> Option<PackedBits>
    requires { HasNumber (rows_of (found_of options.now)) packed }
    ensures { IsOptionalNumber (rows_of (found_of options.now)) packed (option_map (λ bits. bits.bits) result) }
{
    match packed_number(options) {
        Some(bits) => PackedBits::new(bits),
        None => None,
    }
}

// How stamps are written, of a subcommand that has the options.
pub(crate) fn stamp_form(options: &ArgMatches<'_>) -> Result<StampForm, LineFault>
    requires bits { HasNumber (rows_of (found_of options.now)) packed }
    requires dot { HasFlag (rows_of (found_of options.now)) dotted }
    ensures found { IfOk result (IsFormOf (rows_of (found_of options.now))) }
    ensures two { IfErr result (λ fault. (fault ≡ LineFault.Forms) × AreTwoForms (rows_of (found_of options.now))) }
{
    match (packed_bits(options), flag(options, "dotted")) {
        (None, false) => Ok(StampForm::Pair),
        (None, true) => Ok(StampForm::Dotted),
        (Some(bits), false) => Ok(StampForm::Packed(bits)),
        (Some(_), true) => Err(LineFault::Forms),
    }
}

// The tolerance that is given, of a subcommand that has the option.
fn tolerance_number(options: &ArgMatches<'_>) -> Option<u64>
    requires { HasNumber (rows_of (found_of options.now)) tolerance }
    ensures { IsOptionalNumber (rows_of (found_of options.now)) tolerance result }
{
    options.get_one::<u64>("tolerance")
}

// Within how much of its clock a reading is known, of a subcommand that has the option.
pub(crate) fn tolerance(options: &ArgMatches<'_>) -> u64
    requires { HasNumber (rows_of (found_of options.now)) tolerance }
    ensures { IsNumberOr (rows_of (found_of options.now)) tolerance 0 result }
{
    tolerance_number(options).unwrap_or(0)
}

// What clocks do at receives.
pub(crate) fn receives(options: &ArgMatches<'_>) -> Result<Receives, LineFault>
    ensures found { IfOk result (IsReceivesOf (rows_of (found_of options.now))) }
    ensures other { IfErr result (λ fault. (fault ≡ LineFault.Receives) × IsNoReceives (rows_of (found_of options.now))) }
{
    match options.get_str("receives") {
        None => Ok(Receives::Tick),
        Some("tick") => Ok(Receives::Tick),
        Some("merge") => Ok(Receives::Merge),
        Some("merge-clock") => Ok(Receives::MergeClock),
        Some(_) => Err(LineFault::Receives),
    }
}

// Whether `--unsent` is given with its word.
fn unsent_local(options: &ArgMatches<'_>) -> Result<bool, LineFault>
    ensures found { IfOk result (IsWordOf (rows_of (found_of options.now)) unsent (codes "local")) }
    ensures other { IfErr result (λ fault. (fault ≡ LineFault.Unsent) × IsOtherWord (rows_of (found_of options.now)) unsent (codes "local")) }
{
    match options.get_str("unsent") {
        None => Ok(false),
        Some("local") => Ok(true),
        Some(_) => Err(LineFault::Unsent),
    }
}

// In which syntax the records of a log are written, of a subcommand that has the option.
pub(crate) fn syntax(options: &ArgMatches<'_>) -> RecordSyntax
    requires { HasFlag (rows_of (found_of options.now)) jsonl }
    ensures { IsSyntaxOf (rows_of (found_of options.now)) result }
{
    if flag(options, "jsonl") {
        RecordSyntax::JsonLines
    } else {
        RecordSyntax::Csv
    }
}

// How the records of a log are read, of a subcommand that has the options.
pub(crate) fn log_rules(options: &ArgMatches<'_>) -> Result<LogRules, LineFault>
    requires bits { HasNumber (rows_of (found_of options.now)) packed }
    requires dot { HasFlag (rows_of (found_of options.now)) dotted }
    requires known { HasNumber (rows_of (found_of options.now)) tolerance }
    requires leave { HasFlag (rows_of (found_of options.now)) lenient }
    requires tell { HasFlag (rows_of (found_of options.now)) all_faults }
    requires json { HasFlag (rows_of (found_of options.now)) jsonl }
    ensures found { IfOk result (AreLogRules (rows_of (found_of options.now))) }
    ensures mistaken { IfErr result (IsRulesMistake (rows_of (found_of options.now))) }
{
    Ok(LogRules {
        form: stamp_form(options)?,
        tolerance: tolerance(options),
        receives: receives(options)?,
        unsent_local: unsent_local(options)?,
        resent: resent(options)?,
        faults: fault_rule(options)?,
        syntax: syntax(options),
        units: units(options)?,
    })
}

// How what an audit finds is written.
fn output_form(options: &ArgMatches<'_>) -> Result<OutputForm, LineFault>
    ensures found { IfOk result (IsOutputOf (rows_of (found_of options.now))) }
    ensures other { IfErr result (λ fault. (fault ≡ LineFault.Output) × IsNoOutput (rows_of (found_of options.now))) }
{
    match options.get_str("output") {
        None => Ok(OutputForm::Csv),
        Some("csv") => Ok(OutputForm::Csv),
        Some("json") => Ok(OutputForm::Json),
        Some("text") => Ok(OutputForm::Text),
        Some(_) => Err(LineFault::Output),
    }
}

// The options of `audit`.
pub(crate) fn audit_options(options: &ArgMatches<'_>) -> Result<AuditOptions, LineFault>
    requires { HaveOptions (rows_of (found_of options.now)) log_options }
    ensures found { IfOk result (AreAuditOptions (rows_of (found_of options.now))) }
    ensures mistaken { IfErr result (IsAuditMistake (rows_of (found_of options.now))) }
{
    Ok(AuditOptions {
        records: log_rules(options)?,
        strict: flag(options, "strict"),
        limit: drift_limit(options),
        report: flag(options, "report"),
        groups: flag(options, "groups"),
        output: output_form(options)?,
    })
}
