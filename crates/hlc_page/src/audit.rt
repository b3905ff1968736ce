ghost use Rattle.std.specs.Prelude.{◌≡◌, ◌⊎◌, ◌≤◌};
ghost use Rattle.hlc_page.specs.Answer.{IsAudit, IsLogTooLong, outcome_status};
ghost use Rattle.hlc_page.specs.Given.{IsJsonMistake, IsQuestionMistake, texts_in};
ghost use Rattle.hlc_page.specs.Status.{IsStatusOf};

use crate::given::{asked_questions, json_rules};
use crate::options::auditing;
use crate::page_log::PageLog;
use crate::room::put;
use crate::status::{
    PAGE_BAD_LOG, PAGE_BROKEN, PAGE_OK, PAGE_OVER_LIMIT, PAGE_ROOM, PAGE_SETTINGS, PAGE_TOO_LONG,
    given_status, status,
};
use hlc_command_line::CommandFault;
use hlc_log_audit::Outcome;
use hlc_log_commands::audit_by;
use hlc_log_text::NameKey;
use std::alloc::Global;

// The status that says what an audit found.
fn outcome_status(outcome: Outcome) -> u32
    ensures value { result ≡ outcome_status outcome }
    ensures answered { (result ≤ PAGE_BAD_LOG) ⊎ (result ≡ PAGE_OVER_LIMIT) }
    ensures room { ¬ (result ≡ PAGE_ROOM) }
{
    match outcome {
        Outcome::Sound => PAGE_OK,
        Outcome::OverLimit => PAGE_OVER_LIMIT,
        Outcome::Broken { .. } => PAGE_BROKEN,
        Outcome::BadLog => PAGE_BAD_LOG,
    }
}

/// Audits a log, as `hlc audit` does: questions stand in the log itself, or are asked beside it by texts as `--ask` takes them. A limit of 2^64 - 1
/// means no limit. What is found is written as rows of CSV if `output` is 0, as JSON if it is 1, and as text with any other number.
#[unsafe(no_mangle)]
pub extern "C" fn hlc_page_audit(
    alloc: Global,
    log: &PageLog<'_>,
    asked: &[&[u8]],
    drift_limit: u64,
    report: bool,
    grouped: bool,
    output: u32,
    room: &mut [u8],
    told: &mut usize,
) -> u32
    ensures status { IsStatusOf (IsAudit log.now (texts_in asked.now) drift_limit report grouped output) room.old room.new told.old told.new result }
    ensures settings { result ≡ PAGE_SETTINGS → IsJsonMistake log.now ⊎ IsQuestionMistake (texts_in asked.now) }
    ensures too_long { result ≡ PAGE_TOO_LONG → IsLogTooLong log.now }
{
    let json = match json_rules(alloc, log) {
        Ok(json) => json,
        Err(fault) => return given_status(fault),
    };
    let questions = match asked_questions(alloc, asked) {
        Ok(questions) => questions,
        Err(fault) => return given_status(fault),
    };
    let options = auditing(log, drift_limit, report, grouped, output);
    let mut found = Vec::new(alloc);
    match audit_by(
        alloc,
        log.text,
        &mut found,
        options,
        &questions,
        json,
        NameKey::fixed(),
    ) {
        Ok(audited) => put(&found, outcome_status(audited.outcome), room, told),
        Err(fault) => status(CommandFault::from(fault)),
    }
}
