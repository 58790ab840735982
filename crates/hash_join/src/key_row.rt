//! A row of a batch by its key.

ghost use Rattle.std.specs.Prelude.{◌≡◌, ◌<◌, IsTrue, get_or, length, nat_lt, not, true};
ghost use Rattle.std.specs.List.{list_all, list_any};
ghost use Rattle.scan_base.specs.Comparison.{compared};
ghost use Rattle.scan_base.specs.Truth.{keeps};
ghost use Rattle.scan_base.specs.Value.{value_of, is_null};
ghost use Rattle.scan_base.specs.declared.comparison.Comparison.TheVariants.{Equal};
ghost use Rattle.scan_base.specs.declared.value.Value.TheVariants.{Null};
ghost use Rattle.hash_join.specs.Pairs.{keys_join};
ghost use Rattle.hash_join.specs.Hashes.{fed, fed_part, hash_of, number_of, text_digest};
ghost use Rattle.hash_join.specs.Hashes.{value_hash};
ghost use Rattle.hash_join.specs.KeyRows.{key_beside, row_key, IsKeyRow};

use crate::key_codes::{code_at, have_one_code, have_one_number, number_at};
use arrays::{Batch, Cells, is_null};
use scan_base::{Comparison, Truth, ValueRef};
use std::hash::{DefaultHasher, Hash, Hasher};

// What the code of a part weighs against that of the next one, so that both halves of a sum tell of
// both. No contract rests on it.
pub(crate) const PART_WEIGHT: i128 = 0x1_9E37_79B9_7F4A_7C15;

// A row of a batch, and the numbers of the columns that are its key.
#[derive(Clone, Copy, Drop)]
pub(crate) struct KeyRow<'a> {
    pub(crate) batch: &'a Batch,
    pub(crate) key: &'a [usize],
    pub(crate) row: usize,
}

impl<'a> KeyRow<'a> {
    // The value of a part of the key, where it lies.
    pub(crate) fn part(&self, number: usize) -> ValueRef<'a>
        requires row { IsKeyRow self.now }
        requires there { number < length self.now.key.now }
        ensures { value_of result ≡ get_or (row_key self.now) number Null }
    {
        self.part_in(self.row, number)
    }

    // The same in another row of the batch.
    pub(crate) fn part_in(&self, row: usize, number: usize) -> ValueRef<'a>
        requires columns { IsTrue (list_all
            (λ column. nat_lt column (length self.now.batch.now.columns)) self.now.key.now) }
        requires row { row < self.now.batch.now.rows }
        requires there { number < length self.now.key.now }
        ensures { value_of result ≡ get_or (key_beside self.now row) number Null }
    {
        let columns = self.batch.columns();
        columns[self.key[number]].value_at(row)
    }

    // Whether a part of the key is null.
    pub(crate) fn has_null(&self) -> bool
        requires { IsKeyRow self.now }
        ensures { result ≡ list_any is_null (row_key self.now) }
    {
        for number in 0..self.key.len() {
            if is_null(self.part(number)) {
                return true;
            }
        }
        false
    }

    // The number that is the key: none where the key has several parts, or one that is no number.
    pub(crate) fn number(&self) -> Option<i128>
        requires { IsKeyRow self.now }
        ensures { result ≡ number_of (row_key self.now) }
    {
        if self.key.len() != 1 {
            return None;
        }
        match self.part(0) {
            ValueRef::Int(number) => Some(number),
            _ => None,
        }
    }

    // A number that rows of a batch with the same codes have, and others may have too. It is the
    // code that is the key, or a sum of the codes and the numbers of several parts; none where it
    // is no code, or a part has neither.
    pub(crate) fn code(&self) -> Option<i128>
        requires { IsKeyRow self.now }
    {
        if self.key.len() != 1 {
            return self.sum_of_codes();
        }
        let columns = self.batch.columns();
        code_at(&columns[self.key[0]], self.row)
    }

    // The sum of several parts, in which each has a weight of its own.
    fn sum_of_codes(&self) -> Option<i128>
        requires { IsKeyRow self.now }
    {
        let columns = self.batch.columns();
        let mut sum = 0i128;
        for part in 0..self.key.len() {
            let Some(code) = number_at(&columns[self.key[part]], self.row) else {
                return None;
            };
            sum = sum.wrapping_mul(PART_WEIGHT).wrapping_add(code);
        }
        Some(sum)
    }

    // Whether another row of the batch surely has the same key, without a look at a text: the same
    // code of one dictionary, or in each of several parts the same code or number.
    pub(crate) fn has_code_of(&self, other: usize) -> bool
        requires row { IsKeyRow self.now }
        requires other { other < self.now.batch.now.rows }
        ensures { result ≡ true → row_key self.now ≡ key_beside self.now other }
    {
        if self.key.len() != 1 {
            return self.has_parts_of(other);
        }
        let columns = self.batch.columns();
        have_one_code(&columns[self.key[0]], self.row, other)
    }

    // The same of several parts.
    fn has_parts_of(&self, other: usize) -> bool
        requires row { IsKeyRow self.now }
        requires other { other < self.now.batch.now.rows }
        ensures { result ≡ true → row_key self.now ≡ key_beside self.now other }
    {
        for part in 0..self.key.len() {
            if !self.has_part_of(part, other) {
                return false;
            }
        }
        true
    }

    // The code of a part of the key.
    pub(crate) fn part_code(&self, part: usize) -> Option<i128>
        requires row { IsKeyRow self.now }
        requires there { part < length self.now.key.now }
    {
        let columns = self.batch.columns();
        code_at(&columns[self.key[part]], self.row)
    }

    // Whether a part of the key is surely the same in another row of the batch.
    pub(crate) fn has_part_of(&self, part: usize, other: usize) -> bool
        requires row { IsKeyRow self.now }
        requires there { part < length self.now.key.now }
        requires other { other < self.now.batch.now.rows }
        ensures { result ≡ true →
            get_or (row_key self.now) part Null ≡ get_or (key_beside self.now other) part Null }
    {
        let columns = self.batch.columns();
        have_one_number(&columns[self.key[part]], self.row, other)
    }

    // The hash of the key's values, begun with what a hasher has taken in; none where one is null.
    pub(crate) fn hash_from(&self, begun: DefaultHasher) -> Option<u64>
        requires { IsKeyRow self.now }
        ensures { result ≡ hash_of begun (row_key self.now) }
    {
        if self.key.len() == 1 {
            return hash_value(begun, self.part(0));
        }
        let mut hasher = begun;
        for number in 0..self.key.len() {
            if !feed_part(begun, &mut hasher, self.part(number)) {
                return None;
            }
        }
        Some(hasher.finish())
    }

    // Whether the two keys are equal part by part. A null is equal to nothing.
    pub(crate) fn joins(&self, other: &KeyRow<'_>) -> bool
        requires row { IsKeyRow self.now }
        requires other { IsKeyRow other.now }
        requires alike { length self.now.key.now ≡ length other.now.key.now }
        ensures { result ≡ keys_join (row_key self.now) (row_key other.now) }
    {
        for number in 0..self.key.len() {
            if !are_equal(self.part(number), other.part(number)) {
                return false;
            }
        }
        true
    }
}

// The digest of a text, whose hash begins with what a hasher has taken in.
pub(crate) fn text_digest(begun: DefaultHasher, text: &str) -> u64
    ensures { result ≡ text_digest begun text.now }
{
    let mut hasher = begun;
    text.hash(&mut hasher);
    hasher.finish()
}

// The hash of a key that is one value; none where it is null.
fn hash_value(begun: DefaultHasher, value: ValueRef<'_>) -> Option<u64>
    ensures { result ≡ value_hash begun (value_of value.entry) }
{
    let mut hasher = begun;
    if !feed(&mut hasher, value) {
        return None;
    }
    Some(hasher.finish())
}

// Feeds one of several parts to a hasher, and of a text its digest; false where it is null.
pub(crate) fn feed_part(
    begun: DefaultHasher,
    hasher: &mut DefaultHasher,
    value: ValueRef<'_>,
) -> bool
    ensures there { result ≡ not (is_null (value_of value.entry)) }
    ensures fed { hasher.new ≡ fed_part begun hasher.old (value_of value.entry) }
{
    match value {
        ValueRef::Text(text) => {
            text_digest(begun, text).hash(hasher);
            true
        }
        _ => feed(hasher, value),
    }
}

// Feeds a value to a hasher; false where it is null.
fn feed(hasher: &mut DefaultHasher, value: ValueRef<'_>) -> bool
    ensures there { result ≡ not (is_null (value_of value.entry)) }
    ensures fed { hasher.new ≡ fed hasher.old (value_of value.entry) }
{
    match value {
        ValueRef::Null => return false,
        ValueRef::Bool(flag) => flag.hash(hasher),
        ValueRef::Int(number) => number.hash(hasher),
        ValueRef::Text(text) => text.hash(hasher),
    }
    true
}

// Whether two values are equal in SQL.
pub(crate) fn are_equal(left: ValueRef<'_>, right: ValueRef<'_>) -> bool
    ensures { result ≡ keeps (compared Equal (value_of left.entry) (value_of right.entry)) }
{
    match left.compare(Comparison::Equal, right) {
        Truth::True => true,
        _ => false,
    }
}
