//! What was made through a seat.

ghost use Rattle.std.specs.Prelude.{◌≡◌, ◌++◌, ◌∷◌, []};

use std::marker::Model;
use std::snapshot::Snapshot;
use version_log::Entry;

// Entries in order, each with its place in the log, without a bound. Contracts alone see them, by
// snapshots, which take no memory.
#[derive(Drop)]
pub(crate) struct MadeEntries {
    before: Option<Snapshot<MadeEntries>>,
    place: u64,
    last: Snapshot<Entry>,
}

impl Model for MadeEntries {
    ghost use Rattle.version_cell.specs.MadeEntries.{MadeEntriesAt, one_behind};

    ghost Value = { MadeEntriesAt };

    ghost size = { λ made. made.steps };

    ghost view = { λ m. one_behind (λ before. before.value) m.before m.place m.last.value };
}

impl MadeEntries {
    // No entry.
    pub(crate) fn none() -> Snapshot<MadeEntries>
        ensures { result.value.entries ≡ [] }
    {
        Snapshot::of(&MadeEntries {
            before: None,
            place: 0,
            last: Snapshot::of(&Entry::mark(0)),
        })
    }

    // One entry more, at this place.
    pub(crate) fn with(
        before: Snapshot<MadeEntries>,
        place: u64,
        entry: &Entry,
    ) -> Snapshot<MadeEntries>
        ensures { result.value.entries ≡ before.value.entries ++ (place, entry.now) ∷ [] }
    {
        Snapshot::of(&MadeEntries {
            before: Some(before),
            place,
            last: Snapshot::of(entry),
        })
    }
}
