ghost use Rattle.std.specs.Prelude.{◌≡◌, ◌≤◌};
ghost use Rattle.hlc_text.specs.Fault.{all_read};

use crate::counts::Counts;
use crate::reply::Reply;
use crate::text_fault::TextFault;
use hlc_csv::{End, OutputFault, RecordsFault, RowBuffer};
use std::alloc::Global;
use std::io::Write;

/// The answers to records: their rows, and how many records they answer and refuse.
#[derive(Drop)]
pub(crate) struct Answers {
    pub(crate) rows: RowBuffer,
    pub(crate) records: u64,
    pub(crate) refused: u64,
    ghost few: { refused ≤ records },
}

impl Answers {
    ghost use Rattle.std.specs.Prelude.{◌+◌, ◌-◌, ◌^◌, ◌<◌, IfOk, OnOk};
    ghost use Rattle.std.specs.Io.KnownBytes.{Appends};
    ghost use Rattle.hlc_csv.specs.Rows.{AddsRows};
    ghost use Rattle.hlc_text.specs.Reply.{rows_of_reply};
    ghost use Rattle.hlc_text.specs.Answer.{refusals_in};
    ghost use Rattle.hlc_text.specs.Fault.{HandsOut};
    ghost use Rattle.hlc_text.specs.Session.{IsUnused};

    /// The answers to no record.
    pub(crate) fn new(alloc: Global) -> Answers
        ensures { IsUnused result }
    {
        Answers {
            rows: RowBuffer::new(alloc),
            records: 0,
            refused: 0,
        }
    }

    /// Answers one more record.
    #[inline(always)]
    pub(crate) fn push<W: Write>(
        &mut self,
        reply: Reply<'_>,
        writer: &mut W,
    ) -> Result<(), OutputFault>
        requires { self.old.records < 2 ^ 64 - 1 }
        ensures rows { OnOk result (AddsRows W.contents writer.old writer.new self.old.rows self.new.rows (rows_of_reply reply.entry)) }
        ensures records { self.new.records ≡ self.old.records + 1 }
        ensures refused { self.new.refused ≡ self.old.refused + refusals_in (rows_of_reply reply.entry) }
    {
        self.records += 1;
        if reply.is_refusal() {
            self.refused += 1;
        }
        reply.push(&mut self.rows, writer)
    }

    /// Hands out all rows after this end of the reading, if it came to one, and gives what came of the records, which left so many events.
    pub(crate) fn finish<W: Write>(
        self,
        end: Result<End, OutputFault>,
        events: u32,
        writer: &mut W,
    ) -> Result<Counts, TextFault>
        ensures sent { HandsOut result end (Appends (W.contents writer.old) (W.contents writer.new) self.rows) }
        ensures records { IfOk result (λ counts. counts.records ≡ self.records) }
        ensures refused { IfOk result (λ counts. counts.refused ≡ self.refused) }
        ensures events { IfOk result (λ counts. counts.events ≡ events) }
    {
        let Answers {
            rows,
            records,
            refused,
        } = self;
        let read = all_read(end?);
        rows.finish(writer)?;
        read?;
        Ok(Counts {
            records,
            events: u64::from(events),
            refused,
        })
    }
}

// Whether all records were read, or why not.
fn all_read(end: End) -> Result<(), TextFault>
    ensures { result ≡ all_read end }
{
    match end {
        End::NoRecordLeft => Ok(()),
        End::ReadFailed(fault) => Err(TextFault::Records(RecordsFault::from(fault))),
        End::PastLimit => Err(TextFault::Records(RecordsFault::TooLong)),
    }
}
