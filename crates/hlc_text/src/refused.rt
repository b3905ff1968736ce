ghost use Rattle.std.specs.Prelude.{◌≡◌, ◌≢◌, ◌∷◌, [], IfOk, IsErr};
ghost use Rattle.hlc_csv.specs.Rows.{refusal_row};
ghost use Rattle.hlc_text.specs.Reply.{rows_of_reply};
ghost use Rattle.hlc_text.specs.Words.{audit_word, refusal_word};

use crate::reply::Reply;
use hlc_core::Refusal;
use hlc_explain::Missing;
use hlc_verdict::AuditFault;
use std::alloc::AllocError;

// The word of a refusal.
fn refusal_word(refusal: Refusal) -> &'static [u8]
    requires { refusal ≢ Refusal.Memory }
    ensures { result.now ≡ refusal_word refusal }
{
    match refusal {
        Refusal::NoNode => Missing::Node.word(),
        Refusal::ZeroReading => b"zero-reading",
        Refusal::ReadingTooLarge => b"reading-too-large",
        Refusal::Full => b"full",
        Refusal::KeySize => b"key-size",
        Refusal::ValueSize => b"value-size",
        Refusal::NoTarget => b"no-target",
        Refusal::SelfSend => b"self-send",
        Refusal::NoEntry => b"no-entry",
        Refusal::NoMessage => b"no-message",
        Refusal::WrongNode => b"wrong-node",
        Refusal::TooFarAhead => b"too-far-ahead",
        Refusal::Memory => unreachable!(),
    }
}

/// The reply to what is refused. Out of memory has none, since it ends the run.
pub(crate) fn refused<'a>(refusal: Refusal) -> Reply<'a>
    requires { refusal ≢ Refusal.Memory }
    ensures { rows_of_reply result ≡ refusal_row (refusal_word refusal) ∷ [] }
{
    Reply::Refused {
        word: refusal_word(refusal),
    }
}

/// The reply if an audit finds no such node or event. Its other faults have none: a history is never a bad trace, and running
/// out of memory ends the run.
pub(crate) fn missing<'a>(fault: AuditFault) -> Result<Reply<'a>, AllocError>
    ensures row { IfOk result (λ reply. rows_of_reply reply ≡ refusal_row (audit_word fault) ∷ []) }
    ensures memory { fault ≡ AuditFault.Memory → IsErr result }
{
    match fault {
        AuditFault::NoNode => Ok(refused(Refusal::NoNode)),
        AuditFault::NoEvent => Ok(Reply::Refused {
            word: Missing::Event.word(),
        }),
        AuditFault::BadTrace(_) | AuditFault::Memory => Err(AllocError),
    }
}
