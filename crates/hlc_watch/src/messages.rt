// What is remembered of messages.

ghost use Rattle.std.specs.Prelude.{◌≡◌, ◌<◌, IfOk, OnErr, OnOk};
ghost use Rattle.hlc_watch.specs.Kept.{after_send, after_wait, no_messages, receive_count, send_of, waited_for};

use crate::awaited::Awaited;
use crate::latest_sends::LatestSends;
use crate::records::{Claimed, Records, give_send};
use hlc_pages::Bytes;
use std::alloc::{AllocError, Global};
use std::hash::BuildHasher;
use std::marker::Model;

// The latest messages that were sent, and receives whose sends haven't come.
#[derive(Drop)]
pub(crate) struct Messages<S: BuildHasher> {
    sent: LatestSends<S>,
    awaited: Awaited<S>,
    // How many receives were forgotten that waited; or the greatest number, if there were more.
    forgotten: u64,
    alloc: Global,
}

impl<S: BuildHasher> Model for Messages<S> {
    ghost use Rattle.hlc_watch.specs.Kept.{IsBounded, KeptMessages};

    ghost Value = { KeptMessages };

    ghost view = { λ messages. record { sent = messages.sent; awaited = messages.awaited; forgotten = messages.forgotten } };

    ghost invariant = { λ messages. IsBounded messages.sent.keep messages.awaited };
}

impl<S: BuildHasher + Drop> Messages<S> {
    // None, whose names are to be hashed so, and so many are kept.
    pub(crate) fn new(alloc: Global, keep: u32, hash_builder: S) -> Result<Messages<S>, AllocError>
    where
        S: Copy,
        requires { 0 < keep }
        ensures { IfOk result (λ messages. messages ≡ no_messages keep) }
    {
        Ok(Messages {
            sent: LatestSends::new(alloc, keep, hash_builder),
            awaited: Awaited::new(alloc, hash_builder)?,
            forgotten: 0,
            alloc,
        })
    }

    // A message is sent: gives the records of the receives that waited for it.
    pub(crate) fn send(
        &mut self,
        message: &[u8],
        claimed: Claimed,
    ) -> Result<Vec<Records>, AllocError>
        ensures waited { IfOk result (λ waited. waited.items ≡ waited_for self.old message.now claimed) }
        ensures kept { OnOk result (self.new ≡ after_send self.old message.now claimed) }
        ensures unchanged { OnErr result (self.new ≡ self.old) }
    {
        let name = Bytes::from_slice(self.alloc, message)?;
        if !self.awaited.contains(&name) {
            self.sent.put(name, claimed)?;
            return Ok(Vec::new(self.alloc));
        }
        // Those that wait are looked up by a copy of the name, which is made while nothing is changed.
        let again = Bytes::from_slice(self.alloc, message)?;
        self.sent.put(name, claimed)?;
        match self.awaited.take(&again) {
            Some(mut waited) => {
                give_send(&mut waited, claimed);
                Ok(waited)
            }
            None => Ok(Vec::new(self.alloc)),
        }
    }

    // What the send of a message claims, if that is remembered.
    pub(crate) fn find(&self, message: &[u8]) -> Option<Claimed>
        ensures { result ≡ send_of self.now.sent message.now }
    {
        self.sent.get(message)
    }

    // Has a receive wait. If as many wait already as are kept, those of the message for which none has come for the longest time are forgotten.
    pub(crate) fn wait(&mut self, message: &[u8], records: Records) -> Result<(), AllocError>
        ensures kept { OnOk result (self.new ≡ after_wait self.old message.now records) }
        ensures unchanged { OnErr result (self.new ≡ self.old) }
    {
        let message = Bytes::from_slice(self.alloc, message)?;
        let is_full = self.sent.keep() <= self.awaited.count();
        self.awaited.push(message, records)?;
        let forgotten = if is_full { self.awaited.forget() } else { 0 };
        self.forgotten = self.forgotten.saturating_add(forgotten as u64);
        Ok(())
    }

    // How many receives wait.
    pub(crate) fn waiting(&self) -> u32
        ensures { result ≡ receive_count self.now.awaited }
    {
        self.awaited.count() as u32
    }

    // How many receives were forgotten that waited.
    pub(crate) fn forgotten(&self) -> u64
        ensures { result ≡ self.now.forgotten }
    {
        self.forgotten
    }
}
