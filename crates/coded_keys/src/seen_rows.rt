//! Rows that were seen, by the codes of their keys.

ghost use Rattle.std.specs.Prelude.{◌≡◌, ◌≤◌, ◌<◌, length};
ghost use Rattle.coded_keys.specs.Keys.{key_at_place};

use crate::rows::KeyRows;
use scan_base::HashSeed;
use std::alloc::{AllocError, Global};
use std::hash::{BuildHasher, DefaultHasher};

// No table has more entries: 256 KB.
const MOST_ENTRIES: usize = 65_536;

// No more entries are looked at for a row.
const MOST_LOOKS: usize = 8;

// The entry of no row.
const NO_ROW: u32 = u32::MAX;

/// Rows that were seen. Each stands at one of the entries to which the codes of its key lead. It
/// may be forgotten where many are seen. No promise rests on an entry: who asks looks whether that
/// row has the same codes.
#[derive(Drop)]
pub struct SeenRows {
    begun: DefaultHasher,
    mask: usize,
    entries: Vec<u32>,
}

impl SeenRows {
    /// A table for so many rows, none of which was seen. It takes 8 to 16 bytes for each row, and
    /// 256 KB at most. The hashes of codes begin with the seed.
    ///
    /// # Errors
    ///
    /// `AllocError` where memory is refused.
    pub fn new(alloc: Global, seed: HashSeed, rows: usize) -> Result<SeenRows, AllocError> {
        let wanted = 2 * rows.min(MOST_ENTRIES / 2);
        let count = wanted.next_power_of_two();
        Ok(SeenRows {
            begun: seed.build_hasher(),
            mask: count - 1,
            entries: vec![in alloc; NO_ROW; count]?,
        })
    }

    /// The place of a row with the same key: of an earlier one, where one with the same codes was
    /// seen and is not forgotten, or else the row's own. Then it was seen. No text of a dictionary
    /// is looked at.
    pub fn earlier(&mut self, keys: &KeyRows<'_>, place: usize) -> usize
        requires { place < length keys.now.rows.now }
        ensures before { result ≤ place }
        ensures alike { key_at_place keys.now result ≡ key_at_place keys.now place }
    {
        let begin = keys.hash_from(self.begun, place) as usize;
        for look in 0..MOST_LOOKS {
            let at = begin.wrapping_add(look) & self.mask;
            let seen = self.entry(at);
            if seen >= place {
                self.keep(at, place);
                return place;
            }
            if keys.are_alike(seen, place) {
                return seen;
            }
        }
        self.keep(begin & self.mask, place);
        place
    }

    // The place that an entry names.
    fn entry(&self, at: usize) -> usize {
        if at < self.entries.len() {
            self.entries[at] as usize
        } else {
            NO_ROW as usize
        }
    }

    // Keeps a place in an entry, in the stead of what was there.
    fn keep(&mut self, at: usize, place: usize) {
        let number = u32::try_from(place).unwrap_or(NO_ROW);
        if at < self.entries.len() {
            self.entries[at] = number;
        }
    }
}
