ghost use Rattle.std.specs.Prelude.{◌≡◌, ◌↔◌, ◌⊎◌, ℕ, [], IfErr, IfOk, IsErrOf, IsSome, List, Option};
ghost use Rattle.std.specs.Io.KnownBytes.{Keeps};
ghost use Rattle.hlc_core.specs.State.{new_refusal};
ghost use Rattle.hlc_csv.specs.Records.{HasRead, IsScript};
ghost use Rattle.hlc_text.specs.Run.{AnswersAll, Finished, FinishedKeeping, FinishedNoting, StoppedAfter, Overran};
ghost use Rattle.hlc_text.specs.Session.{IsNew, StartsOn, notes_of};
ghost use Rattle.hlc_text.specs.Undelivered.{notes_if};

use crate::ran::Ran;
use crate::session::Session;
use crate::text_fault::TextFault;
use crate::undelivered::Undelivered;
use csv::{ByteRecord, Reader};
use hlc_csv::{End, OutputFault, RecordsFault, read_next, script_reader};
use hlc_stamp::{MAX_RECORDS, Settings};
use std::alloc::Global;
use std::io::{Read, Write};

// A session on these settings, which has answered nothing, and keeps notes or not.
fn start(alloc: Global, settings: Settings, notes: bool) -> Result<Session, TextFault>
    ensures unused { IfOk result IsNew }
    ensures made { IfOk result (StartsOn settings) }
    ensures notes { IfOk result (λ s. notes_of s ≡ notes_if notes []) }
    ensures settings { IsErrOf result TextFault.Settings ↔ IsSome (new_refusal settings.nodes settings.capacity) }
    ensures fault { IfErr result (λ fault. (fault ≡ TextFault.Settings) ⊎ (fault ≡ TextFault.Records RecordsFault.Memory)) }
{
    Ok(Session::new(alloc, settings, notes)?)
}

// Answers the records of a script, `most` of them at most, up to where its reading ends.
fn answer_all<R: Read + Drop, W: Write>(
    session: &mut Session,
    reader: R,
    writer: &mut W,
    most: u64,
) -> Result<End, OutputFault>
    requires { IsNew session.old }
    ensures { IfOk result (AnswersAll most (R.remaining reader) session.old (W.contents writer.old) (W.contents writer.new) session.new) }
{
    let mut input = script_reader(session.alloc, reader);
    let mut fields = ByteRecord::new(session.alloc);
    answer_records(session, &mut input, &mut fields, writer, most)
}

// Answers records, one at a time in `fields`. What comes of it holds of the bytes that the reader began with.
fn answer_records<R: Read, W: Write>(
    session: &mut Session,
    input: &mut Reader<R>,
    fields: &mut ByteRecord,
    writer: &mut W,
    most: u64,
) -> Result<End, OutputFault>
    requires unused { IsNew session.old }
    requires script { IsScript input.old }
    ensures { IfOk result (λ end. (bytes : Option (List ℕ)) → HasRead R.remaining input.old bytes [] →
        AnswersAll most bytes session.old (W.contents writer.old) (W.contents writer.new) session.new end) }
{
    for _count in 0..most {
        if let Some(end) = read_next(input, fields)? {
            return Ok(end);
        }
        session.answer(fields, writer)?;
    }
    match read_next(input, fields)? {
        Some(end) => Ok(end),
        None => Ok(End::PastLimit),
    }
}

// Answers a script of at most so many records, and keeps notes or not.
fn run_keeping<R: Read + Drop, W: Write>(
    alloc: Global,
    reader: R,
    writer: &mut W,
    settings: Settings,
    most: u64,
    notes: bool,
) -> Result<(Ran, Option<Vec<Undelivered>>), TextFault>
    ensures ok { IfOk result (FinishedKeeping notes most settings (R.remaining reader) (W.contents writer.old) (W.contents writer.new)) }
    ensures read { IsErrOf result (TextFault.Records RecordsFault.Read)
        → StoppedAfter most settings (R.remaining reader) (W.contents writer.old) (W.contents writer.new) }
    ensures too_long { IsErrOf result (TextFault.Records RecordsFault.TooLong)
        → Overran most settings (R.remaining reader) (W.contents writer.old) (W.contents writer.new) }
    ensures settings { IsErrOf result TextFault.Settings ↔ IsSome (new_refusal settings.nodes settings.capacity) }
    ensures nothing { IsErrOf result TextFault.Settings → Keeps (W.contents writer.old) (W.contents writer.new) }
{
    let mut session = start(alloc, settings, notes)?;
    // The session is taken apart in one place, whether the reading came to an end or not.
    let end = answer_all(&mut session, reader, writer, most);
    session.finish(end, writer)
}

/// Answers a script as `run` does, and also gives the messages that it left undelivered, in the order in which it lost them, or in
/// which their deliveries were refused.
///
/// It takes memory for these. After a fault of the writer or of memory nothing is promised of what the writer got.
pub fn run_noting<R: Read + Drop, W: Write>(
    alloc: Global,
    reader: R,
    writer: &mut W,
    settings: Settings,
) -> Result<(Ran, Vec<Undelivered>), TextFault>
    ensures ok { IfOk result (λ left. FinishedNoting MAX_RECORDS settings (R.remaining reader)
        (W.contents writer.old) (W.contents writer.new) left.0 left.1.items) }
    ensures read { IsErrOf result (TextFault.Records RecordsFault.Read)
        → StoppedAfter MAX_RECORDS settings (R.remaining reader) (W.contents writer.old) (W.contents writer.new) }
    ensures too_long { IsErrOf result (TextFault.Records RecordsFault.TooLong)
        → Overran MAX_RECORDS settings (R.remaining reader) (W.contents writer.old) (W.contents writer.new) }
    ensures settings { IsErrOf result TextFault.Settings ↔ IsSome (new_refusal settings.nodes settings.capacity) }
    ensures nothing { IsErrOf result TextFault.Settings → Keeps (W.contents writer.old) (W.contents writer.new) }
{
    let (ran, undelivered) = run_keeping(alloc, reader, writer, settings, MAX_RECORDS, true)?;
    Ok((ran, undelivered.unwrap_or(Vec::new(alloc))))
}

/// Answers a script, and gives what it leaves. Each record is answered in turn, and a refused one changes nothing.
///
/// After a fault of the writer or of memory nothing is promised of what the writer got.
pub fn run<R: Read + Drop, W: Write>(
    alloc: Global,
    reader: R,
    writer: &mut W,
    settings: Settings,
) -> Result<Ran, TextFault>
    // The reader has no record left, and the writer got the answer to all.
    ensures ok { IfOk result (Finished MAX_RECORDS settings (R.remaining reader) (W.contents writer.old) (W.contents writer.new)) }

    // The reader failed, and the writer got the answer to the records before that.
    ensures read { IsErrOf result (TextFault.Records RecordsFault.Read)
        → StoppedAfter MAX_RECORDS settings (R.remaining reader) (W.contents writer.old) (W.contents writer.new) }

    // There is a record past the last that is allowed, and the writer got the answer to those before it.
    ensures too_long { IsErrOf result (TextFault.Records RecordsFault.TooLong)
        → Overran MAX_RECORDS settings (R.remaining reader) (W.contents writer.old) (W.contents writer.new) }

    // Bad settings are answered before anything else, and only they are answered so.
    ensures settings { IsErrOf result TextFault.Settings ↔ IsSome (new_refusal settings.nodes settings.capacity) }
    ensures nothing { IsErrOf result TextFault.Settings → Keeps (W.contents writer.old) (W.contents writer.new) }
{
    let (ran, _) = run_keeping(alloc, reader, writer, settings, MAX_RECORDS, false)?;
    Ok(ran)
}
