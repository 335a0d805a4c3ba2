// The entries of items.
ghost use Rattle.std.specs.Prelude.{◌≡◌, [], map, IfOk};
ghost use Rattle.wf_model.specs.Items.{dotted};
ghost use Rattle.wf_labeller.specs.Entries.{entry_seen};

use crate::keeper::Keeper;
use std::alloc::{AllocError, Global};
use std::marker::Model;
use wf_spec::Seq;

/// An item by its name, with the bytes of its label: its bits, and zero bits that fill the last byte.
#[derive(Drop)]
pub struct Entry {
    pub name: Seq<u8>,
    pub label: Seq<u8>,
}

impl Entry {
    /// The entry of the item that is named by an instance and a port.
    pub(crate) fn new(
        alloc: Global,
        instance: &[u8],
        port: &[u8],
        label: &[u8],
    ) -> Result<Entry, AllocError>
        ensures { IfOk result (λ e. entry_seen e ≡ record { name = dotted instance.now port.now; label = label.now }) }
    {
        let mut name = Vec::with_capacity(alloc, instance.len() + port.len() + 1)?;
        name.extend_from_slice(instance)?;
        name.push(b'.')?;
        name.extend_from_slice(port)?;
        let bytes = Vec::from_slice(alloc, label)?;
        Ok(Entry {
            name: Seq::from_vec(name),
            label: Seq::from_vec(bytes),
        })
    }
}

/// The entries of the items that an event made, in order.
#[derive(Drop)]
pub struct Records {
    alloc: Global,
    entries: Vec<Entry>,
}

impl Model for Records {
    ghost use Rattle.std.specs.Prelude.{List, map};
    ghost use Rattle.label_model.specs.Files.{Entry};
    ghost use Rattle.wf_labeller.specs.Entries.{entry_seen};

    ghost Value = { List Entry };

    ghost view = { λ r. map entry_seen r.entries.items };
}

impl Records {
    /// No entries. Takes no memory.
    pub fn new(alloc: Global) -> Records
        ensures { result ≡ [] }
    {
        Records {
            alloc,
            entries: Vec::new(alloc),
        }
    }

    /// The entries, in order.
    pub fn entries(&self) -> &[Entry]
        ensures { map entry_seen result.now ≡ self.now }
    {
        &self.entries
    }
}

/// A list keeps an entry as it is.
impl Keeper for Records {
    ghost use Rattle.std.specs.Prelude.{[], ◌∷◌};
    ghost use Rattle.label_model.specs.Files.{Entry};

    ghost Part = { Entry };

    ghost parts_of = { λ e. e ∷ [] };

    ghost kept = { λ r. r };

    fn keep(&mut self, instance: &[u8], port: &[u8], label: &[u8]) -> Result<(), AllocError> {
        let entry = Entry::new(self.alloc, instance, port, label)?;
        self.entries.push(entry)?;
        Ok(())
    }
}
