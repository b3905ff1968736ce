ghost use Rattle.std.specs.Prelude.{◌≡◌, ℕ, ◌+◌, ◌<◌, ◌≤◌, [], ◌∷◌, IfOk, IsErrOf, List, OnOk, Option, codes, decimal, length};
ghost use Rattle.std.specs.Io.KnownBytes.{Appends};
ghost use Rattle.hlc_csv.specs.Records.{HasRead, IsScript};
ghost use Rattle.hlc_csv.specs.Rows.{AddsRow, Fields, text_of, text_of_row};
ghost use Rattle.hlc_trace.specs.Trace.{AnswersClaims, HasTooMany, IsJudged, ReadsClaims, bad_row, stamp_row, verdict_fields, verdict_rows};

use crate::claim::parse_claim;
use crate::trace_end::TraceEnd;
use csv::{ByteRecord, Reader};
use hlc_csv::RowField::{Number, Text};
use hlc_csv::{End, OutputFault, RecordsFault, RowBuffer, read_next, script_reader};
use hlc_stamp::{MAX_RECORDS, Stamp};
use hlc_verdict::{AuditFault, Claim, Verdict, Verdicts, judge_each};
use std::alloc::{AllocError, Global};
use std::io::{Read, Write};

// Reads the claims of a trace, `most` of them at most, up to where its reading ends.
fn read_claims<R: Read + Drop>(
    alloc: Global,
    reader: R,
    claims: &mut Vec<Claim>,
    most: u64,
) -> Result<TraceEnd, AllocError>
    requires { claims.old.items ≡ [] }
    ensures { IfOk result (ReadsClaims most (R.remaining reader) claims.new.items) }
{
    let mut input = script_reader(alloc, reader);
    let mut fields = ByteRecord::new(alloc);
    read_records(&mut input, &mut fields, claims, most)
}

// Reads records of a trace as claims, one at a time into `fields`. What comes of it holds of the bytes that the reader began with.
fn read_records<R: Read>(
    input: &mut Reader<R>,
    fields: &mut ByteRecord,
    claims: &mut Vec<Claim>,
    most: u64,
) -> Result<TraceEnd, AllocError>
    requires script { IsScript input.old }
    requires none_yet { claims.old.items ≡ [] }
    ensures { IfOk result (λ end. (bytes : Option (List ℕ)) → HasRead R.remaining input.old bytes [] → ReadsClaims most bytes claims.new.items end) }
{
    for _count in 0..most {
        if let Some(end) = read_next(input, fields)? {
            return Ok(TraceEnd::Reading(end));
        }
        match parse_claim(fields) {
            Ok(claim) => claims.push(claim)?,
            Err(bad) => return Ok(TraceEnd::NoClaim(bad)),
        }
    }
    let end = read_next(input, fields)?;
    Ok(TraceEnd::Reading(end.unwrap_or(End::PastLimit)))
}

// Writes the one row that names a place.
fn tell_bad<W: Write>(
    alloc: Global,
    place: u64,
    word: &[u8],
    writer: &mut W,
) -> Result<(), OutputFault>
    ensures { OnOk result (Appends (W.contents writer.old) (W.contents writer.new) (text_of_row (bad_row place word.now))) }
{
    let mut rows = RowBuffer::new(alloc);
    let (place, word) = (Number(place), Text(word));
    rows.push(&[Text(b"bad"), place, word], writer)?;
    rows.finish(writer)
}

// Adds the row of a verdict that names a stamp.
fn push_stamp<W: Write>(
    rows: &mut RowBuffer,
    place: u64,
    word: &[u8],
    stamp: Stamp,
    writer: &mut W,
) -> Result<(), OutputFault>
    ensures { OnOk result (AddsRow W.contents writer.old writer.new rows.old rows.new (stamp_row (decimal place) word.now stamp)) }
{
    let (place, word) = (Number(place), Text(word));
    let (l, c) = (Number(stamp.l), Number(u64::from(stamp.c)));
    rows.push(&[Text(b"verdict"), place, word, l, c], writer)
}

// Adds the row of a verdict.
fn push_verdict<W: Write>(
    rows: &mut RowBuffer,
    place: u64,
    verdict: Verdict,
    writer: &mut W,
) -> Result<(), OutputFault>
    ensures { OnOk result (AddsRow W.contents writer.old writer.new rows.old rows.new (codes "verdict" ∷ decimal place ∷ verdict_fields verdict)) }
{
    match verdict {
        Verdict::Behind => rows.push_numbers(b"verdict", &[place], Some(b"behind"), writer),
        Verdict::NotAbove(event) => {
            let (place, event) = (Number(place), Number(u64::from(event.0)));
            rows.push(
                &[Text(b"verdict"), place, Text(b"not-above"), event],
                writer,
            )
        }
        Verdict::Low(least) => push_stamp(rows, place, b"low", least, writer),
        Verdict::Least => rows.push_numbers(b"verdict", &[place], Some(b"least"), writer),
        Verdict::Ahead(least) => push_stamp(rows, place, b"ahead", least, writer),
    }
}

// Writes a row for each verdict, as it is made.
fn tell_verdicts<W: Write>(
    alloc: Global,
    verdicts: Verdicts<'_, Claim>,
    writer: &mut W,
) -> Result<(), OutputFault>
    requires { length verdicts ≤ MAX_RECORDS }
    ensures { OnOk result (Appends (W.contents writer.old) (W.contents writer.new) (text_of (verdict_rows verdicts.entry))) }
{
    let mut rows = RowBuffer::new(alloc);
    for (place, verdict) in verdicts.enumerate() {
        push_verdict(&mut rows, place as u64, verdict, writer)?;
    }
    rows.finish(writer)
}

// Judges claims, and writes the answer.
fn tell_claims<W: Write>(alloc: Global, claims: &[Claim], writer: &mut W) -> Result<(), OutputFault>
    ensures { OnOk result ((rows : List Fields) × AnswersClaims claims.now rows × Appends (W.contents writer.old) (W.contents writer.new) (text_of rows)) }
{
    match judge_each(alloc, claims) {
        Ok(verdicts) => tell_verdicts(alloc, verdicts, writer),
        Err(AuditFault::BadTrace(place)) => tell_bad(alloc, u64::from(place), b"trace", writer),
        Err(AuditFault::Memory) => Err(OutputFault::Memory),
        Err(_) => unreachable!(),
    }
}

/// Judges a trace, and writes one row for each claim with the verdict on it.
///
/// If a record is not a claim, or the trace is bad, the only row names the first such place. A record that is not a claim
/// takes precedence over a bad trace, wherever it stands, and nothing after it is read. All claims are kept until the trace
/// ends. After a fault of the writer or of memory, nothing is promised of what the writer got.
pub fn judge_run<R: Read + Drop, W: Write>(
    alloc: Global,
    reader: R,
    writer: &mut W,
) -> Result<(), RecordsFault>
    // The reader has no record left and each is a claim, or one that is none was read, and the writer got the answer.
    ensures ok { OnOk result (IsJudged MAX_RECORDS (R.remaining reader) (W.contents writer.old) (W.contents writer.new)) }

    // If the reader failed, the writer got nothing. The same holds if there is a record past the last that is allowed.
    ensures read { IsErrOf result RecordsFault.Read → writer.new ≡ writer.old }
    ensures too_long { IsErrOf result RecordsFault.TooLong → HasTooMany MAX_RECORDS (R.remaining reader) }
    ensures nothing { IsErrOf result RecordsFault.TooLong → writer.new ≡ writer.old }
{
    let mut claims = Vec::new(alloc);
    match read_claims(alloc, reader, &mut claims, MAX_RECORDS)? {
        TraceEnd::Reading(End::NoRecordLeft) => Ok(tell_claims(alloc, &claims, writer)?),
        TraceEnd::Reading(End::ReadFailed(fault)) => Err(RecordsFault::from(fault)),
        TraceEnd::Reading(End::PastLimit) => Err(RecordsFault::TooLong),
        TraceEnd::NoClaim(bad) => Ok(tell_bad(alloc, claims.len() as u64, bad.word(), writer)?),
    }
}
