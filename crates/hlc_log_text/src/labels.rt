ghost use Rattle.std.specs.Prelude.{◌≡◌, [], OnOk, option_map};
ghost use Rattle.hlc_log_text.specs.Labels.{GivesLabel, label_at};

use hlc_pages::Bytes;
use hlc_stamp::EventId;
use std::alloc::{AllocError, Global};
use std::collections::HashMap;
use std::marker::Model;

// The labels of a log's events, by their places; seen as a list of places with their labels.
//
// Only a label that is there takes memory: one of at most 22 bytes lies in the memory of the map, and a longer one takes an
// allocation.
#[derive(Drop)]
pub(crate) struct Labels {
    labels: HashMap<u32, Bytes<'static>>,
}

impl Model for Labels {
    ghost use Rattle.std.specs.Prelude.{ℕ, List};

    ghost Value = { List (ℕ × List ℕ) };

    ghost view = { λ l. l.labels.entries };
}

impl Labels {
    // No labels. It takes no memory.
    pub(crate) fn new(alloc: Global) -> Labels
        ensures { result ≡ [] }
    {
        Labels {
            labels: HashMap::new(alloc),
        }
    }

    // The label of the event at a place, if it has one.
    pub(crate) fn get(&self, place: EventId) -> Option<&[u8]>
        ensures { option_map (λ label. label.now) result ≡ label_at self.now place.0 }
    {
        let label = self.labels.get(&place.0)?;
        Some(label)
    }

    // Gives the event at a place this label, if there is one.
    pub(crate) fn give(
        &mut self,
        alloc: Global,
        place: EventId,
        label: Option<&[u8]>,
    ) -> Result<(), AllocError>
        ensures { OnOk result (GivesLabel self.old self.new place.0 (option_map (λ label. label.now) label.entry)) }
    {
        let Some(label) = label else {
            return Ok(());
        };
        let label = Bytes::from_slice(alloc, label)?;
        self.labels.insert(place.0, label)?;
        Ok(())
    }
}
