// Records that are too many, that no line of JSON makes, or that can't be read, and rows that can't be written.

ghost use Rattle.std.specs.Prelude.{◌≤◌};
ghost use Rattle.hlc_stamp.specs.declared.limits.TheConstants.{MAX_CAPACITY};

use crate::slow::{Narrow, Slow};
use hlc_causality::Receives;
use hlc_log_audit::{AuditRules, RecordsFault, audit_run};
use hlc_log_text::{
    BadLog, FaultRule, LogColumn, LogRules, LogText, LogTextFault, NameKey, RecordSyntax,
    StampForm, read_log,
};
use std::alloc::Global;
use std::process::Abort;

// Reads a text as a log of at most so many records.
fn read_up_to(
    alloc: Global,
    syntax: RecordSyntax,
    text: &[u8],
    most: u32,
) -> Result<LogText, LogTextFault>
    requires { most ≤ MAX_CAPACITY }
{
    let rules = LogRules {
        syntax,
        ..LogRules::exact(StampForm::Pair)
    };
    read_log(alloc, text, rules, most, NameKey::fixed())
}

// Reads a text as a log of at most so many records, and looks whether it has more.
fn expect_length(rt: &impl Abort, alloc: Global, text: &[u8], most: u32, is_too_long: bool)
    requires { most ≤ MAX_CAPACITY }
{
    match read_up_to(alloc, RecordSyntax::Csv, text, most).err() {
        None => assert!(rt; !is_too_long),
        Some(fault) => assert!(rt;
            is_too_long && matches!(fault, LogTextFault::Records(RecordsFault::TooLong))
        ),
    }
}

// The mark after a log is no record of it. A question is one.
#[test]
fn as_many_records_as_are_allowed_are_read(rt: HostRuntime) {
    for text in ["", "local,a,1,1,0\n", "local,a,1,1,0", "event,1\n\n"] {
        expect_length(&rt, rt.alloc(), text.as_bytes(), 1, false);
    }
    expect_length(&rt, rt.alloc(), b"\n", 0, false);
    expect_length(&rt, rt.alloc(), b"event,2\nlocal,a,1,1,0\n", 1, true);
}

// Records of all columns that no line of JSON makes, each bad, with the reason.
static BAD_RECORDS: [(&[u8], BadLog); 4] = [
    (b"local,a,5,,,7.1,,,,,,,", BadLog::Missing(LogColumn::L)),
    (b"local,a,5,5,0,", BadLog::Fields),
    (b"skipped,", BadLog::Fields),
    (b"kind,node,reading,l,c", BadLog::Word),
];

#[test]
fn other_records_of_json_lines_are_bad(rt: HostRuntime) {
    for (record, why) in &BAD_RECORDS {
        let found = read_up_to(rt.alloc(), RecordSyntax::JsonLines, record, 16).err();
        let Some(LogTextFault::Bad(records)) = found else {
            panic!(&rt; "no bad record");
        };
        let told = records.first().map(|record| record.why);
        assert!(rt; told == Some(*why), "{told:?}");
    }
}

const MESSAGE: &[u8] = b"local,a,10,10,0\nsend,a,12,12,0,m\nreceive,b,9,12,1,m\nlocal,b,20,20,0\n";

// A log with stamps of two fields, and no limit.
pub(crate) const PAIRS: AuditRules = AuditRules {
    records: LogRules {
        syntax: RecordSyntax::Csv,
        form: StampForm::Pair,
        units: None,
        tolerance: 0,
        receives: Receives::Tick,
        unsent_local: false,
        resent: None,
        faults: FaultRule::First,
    },
    limit: None,
    report: false,
};

// The reader fails at each byte.
#[test]
fn writes_nothing_where_the_reader_fails(rt: HostRuntime) {
    for cut in 0..=MESSAGE.len() {
        let slow = Slow {
            bytes: &MESSAGE[..cut],
            fails: true,
        };
        let mut out = Vec::new(rt.alloc());
        let audited = audit_run(rt.alloc(), slow, &mut out, PAIRS, &[], NameKey::fixed());
        assert!(rt; matches!(audited.err(), Some(RecordsFault::Read)));
        assert!(rt; out.is_empty());
    }
}

// The writer fails at each byte of the rows.
#[test]
fn tells_that_the_writer_failed(rt: HostRuntime) {
    let mut rows = Vec::new(rt.alloc());
    let audited = audit_run(rt.alloc(), MESSAGE, &mut rows, PAIRS, &[], NameKey::fixed());
    assert!(rt; audited.is_ok() && !rows.is_empty());
    for left in 0..rows.len() {
        let mut out = Narrow { left };
        let audited = audit_run(rt.alloc(), MESSAGE, &mut out, PAIRS, &[], NameKey::fixed());
        assert!(rt;
            matches!(audited.err(), Some(RecordsFault::Write)),
            "{left}"
        );
    }
}
