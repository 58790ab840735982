//! Numbers of values that were seen, by the codes of the values.

ghost use Rattle.std.specs.Prelude.{◌≡◌, ℕ, [], List, Option, Some, IfOk, IfSome};
ghost use Rattle.scan_base.specs.declared.value.Value.{Value};
ghost use Rattle.arrays.specs.Batch.{BatchAt};
ghost use Rattle.coded_keys.specs.Numbers.{AreFree, AreNumbers, IsSeenNumber, value_in};

use crate::key_part::KeyPart;
use scan_base::{HashSeed, ValueRef};
use std::alloc::{AllocError, Global};
use std::hash::{BuildHasher, Hasher};

// No table has more places: 16 MB.
const MOST_PLACES: usize = 1_048_576;

// A table begins with no more places, 1 KB, and grows as values are met. So who looks at few rows
// pays for few.
const FIRST_PLACES: usize = 64;

// A table that grows has so many times the places that it had.
const GROWTH: usize = 8;

// A code is looked for at no more places.
const MOST_LOOKS: usize = 8;

/// A row that was seen, a part of its key, and the number of the value there.
#[derive(Clone, Copy, Drop)]
pub struct SeenNumber {
    pub row: u32,
    pub part: u32,
    pub number: u32,
}

/// At each place a row, a part of its key, and the number of the value there, or nothing. It stands
/// at one of the places to which its code leads. It may be forgotten where many are kept. Who asks
/// looks whether that row has the same code.
#[derive(Drop)]
pub struct SeenNumbers {
    alloc: Global,
    secret: u64,
    parts: usize,
    taken: usize,
    pub places: Vec<Option<SeenNumber>>,
}

// Places that know no number.
fn free_places(alloc: Global, count: usize) -> Result<Vec<Option<SeenNumber>>, AllocError>
    ensures { IfOk result (λ places. AreFree places.items) }
{
    let none: Option<SeenNumber> = None;
    Ok(vec![in alloc; none; count]?)
}

impl SeenNumbers {
    /// A table for keys of so many parts, which knows no number. It takes no memory yet: 16 bytes
    /// for a place once values are kept, and 16 MB at most. For keys of no part it keeps nothing.
    pub fn new(alloc: Global, seed: HashSeed, parts: usize) -> SeenNumbers
        ensures { result.places.items ≡ [] }
    {
        SeenNumbers {
            alloc,
            secret: seed.build_hasher().finish() | 1,
            parts,
            taken: 0,
            places: Vec::new(alloc),
        }
    }

    /// Forgets all rows, as for those of another batch.
    pub fn forget(&mut self)
        ensures { self.new.places.items ≡ [] }
    {
        self.taken = 0;
        self.places = Vec::new(self.alloc);
    }

    /// The number of a part of a row's key, where a row with the same code there was seen and is
    /// not forgotten. No text of a dictionary is looked at.
    pub fn number(&self, at: &KeyPart<'_>) -> Option<u32>
        ensures { (numbers : Value → Option ℕ) →
            AreNumbers numbers at.now.batch.now at.now.columns.now self.now.places.items →
            IfSome result (λ number. numbers (value_in at.now) ≡ Some number) }
    {
        let Some(begin) = self.place(at) else {
            return None;
        };
        for look in 0..MOST_LOOKS {
            let Some(seen) = self.entry(begin.wrapping_add(look)) else {
                return None;
            };
            if seen.part == at.part
                && (seen.row as usize) < at.batch.rows()
                && at.has_code_of(seen.row)
            {
                return Some(seen.number);
            }
        }
        None
    }

    /// Keeps the number of a part of a row's key, where it was not found. Where all its places are
    /// taken, it takes the first. Where memory is refused, it is not kept.
    pub fn keep(&mut self, at: &KeyPart<'_>, number: u32)
        ensures { (numbers : Value → Option ℕ) → numbers (value_in at.now) ≡ Some number →
            AreNumbers numbers at.now.batch.now at.now.columns.now self.old.places.items →
            AreNumbers numbers at.now.batch.now at.now.columns.now self.new.places.items }
    {
        self.make_room();
        let place = self.room(at);
        if place < self.places.len() {
            self.taken = self.taken.saturating_add(1);
            self.places[place] = Some(SeenNumber {
                row: at.row,
                part: at.part,
                number,
            });
        }
    }

    // Makes more places where half of them were taken. They know nothing yet. For keys of no part
    // none are made.
    fn make_room(&mut self)
        ensures { (numbers : Value → Option ℕ) (batch : BatchAt) (columns : List ℕ) →
            AreNumbers numbers batch columns self.old.places.items →
            AreNumbers numbers batch columns self.new.places.items }
    {
        let count = self.places.len();
        if self.parts == 0 || count >= MOST_PLACES || self.taken < count / 2 {
            return;
        }
        let more = MOST_PLACES.min(GROWTH * count).max(FIRST_PLACES);
        self.forget();
        if let Ok(places) = free_places(self.alloc, more) {
            self.places = places;
        }
    }

    // The first place of a part's code: one of its own where there are enough; none where it has no
    // code. No contract rests on it.
    fn place(&self, at: &KeyPart<'_>) -> Option<usize> {
        let ValueRef::Int(code) = at.code() else {
            return None;
        };
        let Ok(index) = usize::try_from(code) else {
            return None;
        };
        let number = index
            .wrapping_mul(self.parts)
            .wrapping_add(at.part as usize);
        if number < self.places.len() {
            Some(number)
        } else {
            Some(self.spread(number as u64))
        }
    }

    // What stands at a place, which is counted round.
    fn entry(&self, place: usize) -> Option<SeenNumber>
        ensures { (numbers : Value → Option ℕ) (batch : BatchAt) (columns : List ℕ) →
            AreNumbers numbers batch columns self.now.places.items →
            IfSome result (IsSeenNumber numbers batch columns) }
    {
        let at = place & self.places.len().saturating_sub(1);
        if at < self.places.len() {
            self.places[at]
        } else {
            None
        }
    }

    // Where a part is to stand: at the first free place of those to which its code leads, or else
    // at the first of them. A place that is not there, where it has no code.
    fn room(&self, at: &KeyPart<'_>) -> usize {
        let count = self.places.len();
        let Some(begin) = self.place(at) else {
            return count;
        };
        for look in 0..MOST_LOOKS {
            let place = begin.wrapping_add(look);
            if self.entry(place).is_none() {
                return place & count.saturating_sub(1);
            }
        }
        begin
    }

    // The place of a number among all places, by a product with the secret.
    fn spread(&self, number: u64) -> usize {
        let mask = self.places.len().saturating_sub(1);
        let product = number.wrapping_mul(self.secret);
        product.wrapping_shr((mask as u64).leading_zeros()) as usize & mask
    }
}
