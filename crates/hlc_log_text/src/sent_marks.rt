ghost use Rattle.std.specs.Prelude.{◌≡◌, ◌==◌, ◌||◌, ℕ, IsTrue, OnOk, false};
ghost use Rattle.hlc_log.specs.Unsent.{is_send};
ghost use Rattle.hlc_log_text.specs.PartialLog.{mark_at};

use hlc_log::{LogKind, MessageId};
use std::alloc::{AllocError, Global};

// Which messages were sent so far, by their numbers, if that is kept.
#[derive(Drop)]
pub(crate) struct SentMarks {
    is_kept: bool,
    marks: Vec<bool>,
}

impl SentMarks {
    // None was. It takes no memory.
    pub(crate) fn new(alloc: Global, is_kept: bool) -> SentMarks
        ensures kept { result.is_kept ≡ is_kept }
        ensures none { (m : ℕ) → mark_at result m ≡ false }
    {
        SentMarks {
            is_kept,
            marks: Vec::new(alloc),
        }
    }

    // Whether it is kept.
    pub(crate) fn is_kept(&self) -> bool
        ensures { result ≡ self.now.is_kept }
    {
        self.is_kept
    }

    // Keeps what an event of a kind sends. It takes memory only if that is kept.
    pub(crate) fn mark(&mut self, kind: LogKind) -> Result<(), AllocError>
        ensures marks { OnOk result (IsTrue self.old.is_kept → (m : ℕ) → mark_at self.new m ≡ (mark_at self.old m || is_send m kind)) }
        ensures kept { self.new.is_kept ≡ self.old.is_kept }
    {
        if !self.is_kept {
            return Ok(());
        }
        match kind {
            LogKind::Send(message) => self.mark_message(message),
            _ => Ok(()),
        }
    }

    // Marks a message as sent.
    fn mark_message(&mut self, message: MessageId) -> Result<(), AllocError>
        ensures marks { OnOk result ((m : ℕ) → mark_at self.new m ≡ (mark_at self.old m || (message.0 == m))) }
        ensures kept { self.new.is_kept ≡ self.old.is_kept }
    {
        let place = message.0 as usize;
        if place >= self.marks.len() {
            self.marks.resize(place + 1, false)?;
        }
        self.marks[place] = true;
        Ok(())
    }

    // Whether a message was sent.
    pub(crate) fn has(&self, message: usize) -> bool
        ensures { result ≡ mark_at self.now message }
    {
        message < self.marks.len() && self.marks[message]
    }
}
