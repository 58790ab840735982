//! The dictionaries of a stream of messages.

ghost use Rattle.std.specs.Prelude.{◌≡◌, [], IfOk, OnOk, OnErr};
ghost use Rattle.std.specs.Arc.{arc_value};
ghost use Rattle.ipc_batch.specs.State.{values_under, with_values};

use arrays::Dictionary;
use std::alloc::{AllocError, Global};
use std::marker::Model;
use std::sync::Arc;

// The values of a dictionary, and its id.
#[derive(Drop)]
struct Entry {
    id: u64,
    values: Arc<Dictionary>,
}

impl Model for Entry {
    ghost use Rattle.std.specs.Prelude.{ℕ, List};
    ghost use Rattle.std.specs.Arc.{arc_value};
    ghost use Rattle.scan_base.specs.declared.value.Value.{Value as Cell};

    ghost Value = { ℕ × List Cell };

    ghost view = { λ e. (e.id, arc_value e.values) };
}

/// Dictionaries by their ids, as they now are. A contract sees their values.
#[derive(Drop)]
pub(crate) struct Dictionaries {
    entries: Vec<Entry>,
}

impl Model for Dictionaries {
    ghost use Rattle.ipc_batch.specs.State.{Dictionaries as Entries};

    ghost Value = { Entries };

    ghost view = { λ d. d.entries.items };
}

impl Dictionaries {
    /// None. It takes no memory.
    pub fn new(alloc: Global) -> Dictionaries
        ensures { result ≡ [] }
    {
        Dictionaries {
            entries: Vec::new(alloc),
        }
    }

    /// The dictionary of an id: an empty one before it is put.
    pub fn get(&self, alloc: Global, id: u64) -> Result<Arc<Dictionary>, AllocError>
        ensures { IfOk result (λ dictionary. arc_value dictionary ≡ values_under self.now id) }
    {
        for entry in self.entries.as_slice() {
            if entry.id == id {
                return Arc::try_clone(&entry.values);
            }
        }
        Ok(Arc::new(alloc, Dictionary::new(alloc))?)
    }

    /// Puts a dictionary in the place of the one of its id, where there is one. Whoever holds that
    /// one keeps it.
    pub fn put(&mut self, id: u64, values: Arc<Dictionary>) -> Result<(), AllocError>
        ensures ok { OnOk result (self.new ≡ with_values id (arc_value values) self.old) }
        ensures err { OnErr result (self.new ≡ self.old) }
    {
        for j in 0..self.entries.len() {
            if self.entries[j].id == id {
                self.entries[j] = Entry { id, values };
                return Ok(());
            }
        }
        Ok(self.entries.push(Entry { id, values })?)
    }
}
