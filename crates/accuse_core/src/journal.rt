//! Journals: events with the replies to them.

ghost use Rattle.std.specs.Prelude.{◌≡◌, ◌<◌, ◌≤◌, ◌+◌, [], ◌∷◌, ◌++◌, length, OnOk, OnErr};
ghost use Rattle.accuse_core.specs.declared.journal.Entries.{Entries};

use crate::event::{Event, Reply};
use std::alloc::{AllocError, Global};
use std::marker::Model;

/// An event and the core's reply to it.
#[derive(Clone, Copy, Debug, PartialEq, Eq)]
pub struct Entry {
    pub event: Event,
    pub reply: Reply,
}

/// Entries in their order. Contracts see the list, and the room: how many more entries need no
/// memory.
#[derive(Debug, Drop)]
pub struct Entries {
    items: Vec<Entry>,
}

impl Model for Entries {
    ghost use Rattle.std.specs.Prelude.{◌-◌, vec_len, vec_capacity};
    ghost use Rattle.accuse_core.specs.Seen.{EntriesSeen};

    ghost Value = { EntriesSeen };

    ghost view = { λ e. record {
      entries = e.items.items;
      room = vec_capacity e.items - vec_len e.items;
    } };
}

impl Entries {
    /// No entry. It takes no memory.
    pub fn new(alloc: Global) -> Entries
        ensures { result.entries ≡ [] }
    {
        Entries {
            items: Vec::new(alloc),
        }
    }

    /// Makes room for some more entries. If memory runs out, nothing changes.
    pub fn reserve(&mut self, more: usize) -> Result<(), AllocError>
        ensures entries { self.new.entries ≡ self.old.entries }
        ensures room { OnOk result (more ≤ self.new.room) }
        ensures refused { OnErr result (self.new.room ≡ self.old.room) }
    {
        self.items.reserve(more)
    }

    /// Puts an entry at the end, for which there is room. It takes no memory.
    pub fn push(&mut self, entry: Entry)
        requires { 0 < self.old.room }
        ensures entries { self.new.entries ≡ self.old.entries ++ entry ∷ [] }
        ensures room { self.old.room ≤ self.new.room + 1 }
    {
        match self.items.push(entry) {
            Ok(()) => {}
            Err(_) => unreachable!(),
        }
    }

    pub fn as_slice(&self) -> &[Entry]
        ensures { result.now ≡ self.now.entries }
    {
        self.items.as_slice()
    }
}
