// What the sends of the latest messages claim.

ghost use Rattle.std.specs.Prelude.{◌≡◌, ◌^◌, ◌<◌, OnErr, OnOk};
ghost use Rattle.hlc_watch.specs.Kept.{no_sends, send_of, with_sent};

use crate::records::Claimed;
use hlc_pages::Bytes;
use indexmap::IndexMap;
use std::alloc::{AllocError, Global};
use std::hash::BuildHasher;
use std::marker::Model;

// Of so many messages, those that were sent last, what their sends claim.
#[derive(Drop)]
pub(crate) struct LatestSends<S: BuildHasher> {
    // By the names of the messages, in a ring: once there are as many as are kept, a new one takes the place of the first.
    claims: IndexMap<Bytes<'static>, Claimed, S>,
    // The place of the one that was sent first.
    first: usize,
    keep: usize,
}

impl<S: BuildHasher> Model for LatestSends<S> {
    ghost use Rattle.hlc_watch.specs.Kept.{KeptSends};
    ghost use Rattle.hlc_watch.specs.Ring.{IsRing, items_from};

    ghost Value = { KeptSends };

    ghost view = { λ sends. record { sends = items_from sends.first sends.claims.entries; keep = sends.keep } };

    ghost invariant = { λ sends. IsRing sends.keep sends.first sends.claims.entries };
}

impl<S: BuildHasher + Drop> LatestSends<S> {
    // None, whose names are to be hashed so, and so many are kept.
    pub(crate) fn new(alloc: Global, keep: u32, hash_builder: S) -> LatestSends<S>
        requires { 0 < keep }
        ensures { result ≡ no_sends keep }
    {
        LatestSends {
            claims: IndexMap::with_hasher(alloc, hash_builder),
            first: 0,
            keep: keep as usize,
        }
    }

    // How many are kept.
    pub(crate) fn keep(&self) -> usize
        ensures keep { result ≡ self.now.keep }
        ensures fits { result < 2 ^ 32 }
    {
        self.keep
    }

    // What the send of a message claims, if it is among the latest.
    pub(crate) fn get(&self, message: &[u8]) -> Option<Claimed>
        ensures { result ≡ send_of self.now message.now }
    {
        self.claims.get(&Bytes::borrowed(message)).copied()
    }

    // A message is sent. One that is there keeps its place; if there are too many, the one that was sent first is forgotten.
    pub(crate) fn put(
        &mut self,
        message: Bytes<'static>,
        claimed: Claimed,
    ) -> Result<(), AllocError>
        ensures kept { OnOk result (self.new ≡ with_sent self.old message.entry claimed) }
        ensures unchanged { OnErr result (self.new ≡ self.old) }
    {
        self.claims.insert(message, claimed)?;
        if self.claims.len() > self.keep {
            // The new one, which is the last, takes that place.
            self.claims.swap_remove_index(self.first);
            self.first = (self.first + 1) % self.keep;
        }
        Ok(())
    }
}
