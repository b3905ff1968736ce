ghost use Rattle.std.specs.Prelude.{◌≡◌, ◌-◌, ◌<◌, ◌^◌};
ghost use Rattle.csv.specs.Records.{fields_of};
ghost use Rattle.hlc_csv.specs.Number.{number_of};
ghost use Rattle.hlc_trace.specs.Claim.{claim_of, claim_with, if_count, kind_in, claimed_stamp};

use crate::trace_word::TraceWord;
use csv::ByteRecord;
use hlc_csv::{BadRecord, field, number, number_u16, number_u32};
use hlc_stamp::{EventId, NodeId, Stamp};
use hlc_verdict::{Claim, ClaimKind};

// The number that a field writes, if it is at most 4,294,967,295.
#[inline]
fn count(field: &[u8]) -> Option<u32>
    ensures { result ≡ if_count (number_of field.now) }
{
    u32::try_from(number(field)?).ok()
}

// The stamp at a place and the next.
#[inline]
fn stamp_at(fields: &ByteRecord, place: usize) -> Option<Stamp>
    requires { place < 2 ^ 64 - 1 }
    ensures { result ≡ claimed_stamp (fields_of fields.now) place }
{
    let l = number(field(fields, place))?;
    let c = count(field(fields, place + 1))?;
    Some(Stamp { l, c })
}

// What a record of a word claims to have happened.
#[inline]
fn kind_of(word: TraceWord, fields: &ByteRecord) -> Option<ClaimKind>
    ensures { result ≡ kind_in word (fields_of fields.now) }
{
    match word {
        TraceWord::Local => Some(ClaimKind::Local),
        TraceWord::Send => Some(ClaimKind::Send),
        TraceWord::Receive => {
            let sent = EventId(number_u32(field(fields, 3))?);
            Some(ClaimKind::Receive { sent })
        }
    }
}

// The claim of a record of a word and as many fields as it has.
#[inline]
fn make_claim(word: TraceWord, fields: &ByteRecord) -> Option<Claim>
    ensures { result ≡ claim_with word (fields_of fields.now) }
{
    let node = number_u16(field(fields, 1))?;
    let reading = number(field(fields, 2))?;
    let kind = kind_of(word, fields)?;
    let stamp = stamp_at(fields, word.stamp_place())?;
    Some(Claim {
        node: NodeId(node),
        reading,
        kind,
        stamp,
    })
}

/// Reads a record of a trace as a claim. The word is checked first, then the number of fields, then the numbers.
///
/// A node or a send that is too large for its type stands for the greatest of the type; a `c` of a stamp may not be.
pub(crate) fn parse_claim(fields: &ByteRecord) -> Result<Claim, BadRecord>
    ensures { result ≡ claim_of (fields_of fields.now) }
{
    let word = TraceWord::parse(field(fields, 0)).ok_or(BadRecord::Word)?;
    if fields.len() != word.field_count() {
        return Err(BadRecord::Fields);
    }
    make_claim(word, fields).ok_or(BadRecord::Number)
}
