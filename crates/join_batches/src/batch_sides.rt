//! The rows that pairs stand for, as columns.

ghost use Rattle.std.specs.Prelude.{◌≡◌, ◌≤◌, ◌<◌, ◌^◌, ◌+◌, ◌*◌, ℕ, All, IfOk, length, map};
ghost use Rattle.std.specs.Prelude.{nat_le, slice_index_or, true};
ghost use Rattle.std.specs.List.{AllZip};
ghost use Rattle.arrow_types.specs.Answer.{copied_type};
ghost use Rattle.arrays.specs.TypedLayouts.{AreOf, IsOfType};
ghost use Rattle.arrays.specs.WrittenSlots.{texts_joined};
ghost use Rattle.array_select.specs.Room.{most_batch_cells, most_batch_texts};
ghost use Rattle.join_batches.specs.BatchSides.{AllFit, AreSides, ArePairs, HavePlaces, AreSources};
ghost use Rattle.join_batches.specs.BatchSides.{HoldCells, place_for};
ghost use Rattle.join_batches.specs.BatchSides.{AreColumnsOf, FitsIn, IsPairBatch, IsColumnOf};
ghost use Rattle.join_batches.specs.BatchSides.{copied_at};
ghost use Rattle.join_batches.specs.BatchSides.{cells_of, rows_at, type_in, side_types, width_of};

use crate::placed_pairs::{PlacedPairs, left_places, right_places};
use array_select::{
    MOST_OFFSET, SlotPlace, SlotRef, column_of_slots, gather_many, has_texts, text_share,
    texts_fit, texts_fit_many,
};
use arrays::{Batch, Column};
use arrow_types::DataType;
use hash_join::Pair;
use std::alloc::{AllocError, Global};

// The left batch and the right batches, and the types of the columns of both.
#[derive(Clone, Copy, Drop)]
pub(crate) struct BatchSides<'a> {
    pub(crate) left: &'a Batch,
    pub(crate) left_types: &'a [DataType],
    pub(crate) rights: &'a [Batch],
    pub(crate) right_types: &'a [DataType],
}

impl<'a> BatchSides<'a> {
    // These columns of the joined rows of pairs, from the first on, as a batch: as many rows as
    // have room in one.
    pub(crate) fn joined(
        &self,
        alloc: Global,
        shown: &[usize],
        pairs: &[Pair],
    ) -> Result<Batch, AllocError>
        requires sides { AreSides self.now }
        requires shown { AreColumnsOf self.now shown.now }
        requires there { ArePairs self.now pairs.now }
        requires some { 0 < length pairs.now }
        requires cells { 1 < length pairs.now →
            length pairs.now * length shown.now ≤ most_batch_cells }
        ensures { IfOk result (λ batch. IsPairBatch self.now shown.now pairs.now batch) }
    {
        let lefts = left_places(alloc, pairs)?;
        let rights = right_places(alloc, pairs)?;
        let placed = PlacedPairs {
            pairs,
            lefts: lefts.as_slice(),
            rights: rights.as_slice(),
        };
        let types = self.types_at(alloc, shown)?;
        let share = text_share(types.as_slice());
        let count = self.how_many_fit(alloc, shown, share, &placed)?;
        let columns = self.columns(alloc, shown, &placed.first(count))?;
        Ok(Batch::new(columns, count))
    }

    // The types of these columns, as they come.
    fn types_at(&self, alloc: Global, shown: &[usize]) -> Result<Vec<DataType>, AllocError>
        requires { AreColumnsOf self.now shown.now }
        ensures { IfOk result (λ types. types.items ≡ map (type_in self.now) shown.now) }
    {
        let mut types = Vec::with_capacity(alloc, shown.len())?;
        for number in shown {
            types.push(self.type_of(*number))?;
        }
        Ok(types)
    }

    // How many of the pairs, from the first on, have room in one batch of these columns, where the
    // texts of one have a share.
    fn how_many_fit(
        &self,
        alloc: Global,
        shown: &[usize],
        share: usize,
        placed: &PlacedPairs<'_>,
    ) -> Result<usize, AllocError>
        requires sides { AreSides self.now }
        requires shown { AreColumnsOf self.now shown.now }
        requires share { share ≤ most_batch_texts }
        requires placed { HavePlaces placed.now }
        requires there { ArePairs self.now placed.now.pairs.now }
        requires some { 0 < length placed.now.pairs.now }
        ensures { IfOk result
            (λ count. AllFit self.now share placed.now.pairs.now shown.now count) }
    {
        let mut count = placed.pairs.len();
        for number in shown {
            count = self.how_many_fit_in(alloc, *number, share, &placed.first(count))?;
        }
        Ok(count)
    }

    // How many of the pairs, from the first on, have room in one batch by their texts in a column:
    // all of them, halved until the texts have no more bytes than the share. Only texts are looked
    // at.
    fn how_many_fit_in(
        &self,
        alloc: Global,
        number: usize,
        share: usize,
        placed: &PlacedPairs<'_>,
    ) -> Result<usize, AllocError>
        requires sides { AreSides self.now }
        requires share { share ≤ most_batch_texts }
        requires placed { HavePlaces placed.now }
        requires there { ArePairs self.now placed.now.pairs.now }
        requires number { number < width_of self.now }
        requires some { 0 < length placed.now.pairs.now }
        ensures { IfOk result (λ count. FitsIn self.now share placed.now.pairs.now number count) }
    {
        let mut count = placed.pairs.len();
        if !has_texts(self.type_of(number)) {
            return Ok(count);
        }
        while !self.texts_fit(alloc, number, &placed.first(count), share)? {
            if count == 1 {
                return self.alone(alloc, number, &placed.first(1));
            }
            count /= 2;
        }
        Ok(count)
    }

    // One pair, if offsets can name each byte of its text in a column.
    fn alone(
        &self,
        alloc: Global,
        number: usize,
        placed: &PlacedPairs<'_>,
    ) -> Result<usize, AllocError>
        requires sides { AreSides self.now }
        requires placed { HavePlaces placed.now }
        requires there { ArePairs self.now placed.now.pairs.now }
        requires number { number < width_of self.now }
        ensures one { IfOk result (λ count. count ≡ 1) }
        ensures named { IfOk result
            (λ _. length (texts_joined (cells_of (rows_at self.now placed.now.pairs.now) number))
            < 2 ^ 31) }
    {
        if self.texts_fit(alloc, number, placed, MOST_OFFSET)? {
            Ok(1)
        } else {
            Err(AllocError)
        }
    }

    // Whether the texts of all pairs in a column have no more than `most` bytes. The columns of
    // right batches are listed only where they are no more than the pairs.
    fn texts_fit(
        &self,
        alloc: Global,
        number: usize,
        placed: &PlacedPairs<'_>,
        most: usize,
    ) -> Result<bool, AllocError>
        requires sides { AreSides self.now }
        requires placed { HavePlaces placed.now }
        requires there { ArePairs self.now placed.now.pairs.now }
        requires number { number < width_of self.now }
        ensures { IfOk result (λ fit. fit ≡ nat_le (length
            (texts_joined (cells_of (rows_at self.now placed.now.pairs.now) number))) most) }
    {
        if self.rights.len() > placed.pairs.len() {
            let slots = self.slots(alloc, number, placed.pairs)?;
            return Ok(texts_fit(slots.as_slice(), most));
        }
        let columns = self.sources(alloc, number)?;
        let places = self.places(number, placed);
        Ok(texts_fit_many(columns.as_slice(), places, most))
    }

    // These columns of the joined rows.
    fn columns(
        &self,
        alloc: Global,
        shown: &[usize],
        placed: &PlacedPairs<'_>,
    ) -> Result<Vec<Column>, AllocError>
        requires sides { AreSides self.now }
        requires shown { AreColumnsOf self.now shown.now }
        requires placed { HavePlaces placed.now }
        requires there { ArePairs self.now placed.now.pairs.now }
        requires named { All (λ number. length (texts_joined
            (cells_of (rows_at self.now placed.now.pairs.now) number)) < 2 ^ 31) shown.now }
        ensures cells { IfOk result
            (λ columns. AllZip (IsColumnOf (rows_at self.now placed.now.pairs.now)) shown.now
            columns.items) }
        ensures typed { IfOk result
            (λ columns. AreOf (map (copied_at self.now) shown.now) columns.items) }
    {
        let mut columns = Vec::with_capacity(alloc, shown.len())?;
        for number in shown {
            let column = self.column(alloc, *number, placed)?;
            columns.push(column)?;
        }
        Ok(columns)
    }

    // A column of the joined rows.
    fn column(
        &self,
        alloc: Global,
        number: usize,
        placed: &PlacedPairs<'_>,
    ) -> Result<Column, AllocError>
        requires sides { AreSides self.now }
        requires placed { HavePlaces placed.now }
        requires there { ArePairs self.now placed.now.pairs.now }
        requires number { number < width_of self.now }
        requires named { length
            (texts_joined (cells_of (rows_at self.now placed.now.pairs.now) number)) < 2 ^ 31 }
        ensures cells { IfOk result
            (λ column. IsColumnOf (rows_at self.now placed.now.pairs.now) number column) }
        ensures typed { IfOk result (λ column. IsOfType
            (copied_type (slice_index_or (side_types self.now) number DataType.Utf8))
            column.layout) }
    {
        if !self.is_gathered(number, placed) {
            return self.column_of_slots(alloc, number, placed.pairs);
        }
        let columns = self.sources(alloc, number)?;
        let places = self.places(number, placed);
        gather_many(alloc, self.type_of(number), columns.as_slice(), places)
    }

    // Whether a column of the joined rows is gathered: not of texts of dictionaries, nor of fewer
    // pairs than there are right batches.
    fn is_gathered(&self, number: usize, placed: &PlacedPairs<'_>) -> bool
        requires { number < width_of self.now }
        ensures { result ≡ true →
            copied_type (slice_index_or (side_types self.now) number DataType.Utf8)
            ≡ slice_index_or (side_types self.now) number DataType.Utf8 }
    {
        is_plain(self.type_of(number)) && self.rights.len() <= placed.pairs.len()
    }

    // A column of the joined rows, slot by slot.
    fn column_of_slots(
        &self,
        alloc: Global,
        number: usize,
        pairs: &[Pair],
    ) -> Result<Column, AllocError>
        requires sides { AreSides self.now }
        requires there { ArePairs self.now pairs.now }
        requires number { number < width_of self.now }
        requires named { length (texts_joined (cells_of (rows_at self.now pairs.now) number))
            < 2 ^ 31 }
        ensures cells { IfOk result
            (λ column. IsColumnOf (rows_at self.now pairs.now) number column) }
        ensures typed { IfOk result (λ column. IsOfType
            (copied_type (slice_index_or (side_types self.now) number DataType.Utf8))
            column.layout) }
    {
        let slots = self.slots(alloc, number, pairs)?;
        column_of_slots(alloc, self.type_of(number), slots.as_slice())
    }

    // The columns in which a column of the joined rows has its slots: one of the left batch, or one
    // of each right batch.
    fn sources(&self, alloc: Global, number: usize) -> Result<Vec<&'a Column>, AllocError>
        requires sides { AreSides self.now }
        requires number { number < width_of self.now }
        ensures { IfOk result
            (λ columns. AreSources self.now number (map (λ column. column.now) columns.items)) }
    {
        let count = self.left_types.len();
        if number < count {
            self.left_source(alloc, number)
        } else {
            self.right_sources(alloc, number - count)
        }
    }

    // A column of the left batch.
    #[tactic(auto, using(crate::proofs::Typed::typed_long))]
    fn left_source(&self, alloc: Global, number: usize) -> Result<Vec<&'a Column>, AllocError>
        requires sides { AreSides self.now }
        requires number { number < length self.now.left_types.now }
        ensures { IfOk result
            (λ columns. AreSources self.now number (map (λ column. column.now) columns.items)) }
    {
        let column = &self.left.columns()[number];
        let mut sources = Vec::new(alloc);
        sources.push(column)?;
        Ok(sources)
    }

    // The columns of a number of all right batches.
    #[tactic(auto, using(crate::proofs::Typed::typed_long))]
    fn right_sources(&self, alloc: Global, number: usize) -> Result<Vec<&'a Column>, AllocError>
        requires sides { AreSides self.now }
        requires number { number < length self.now.right_types.now }
        ensures { IfOk result (λ columns.
            AreSources self.now (length self.now.left_types.now + number)
            (map (λ column. column.now) columns.items)) }
    {
        let mut sources = Vec::with_capacity(alloc, self.rights.len())?;
        for batch in self.rights {
            let column = &batch.columns()[number];
            sources.push(column)?;
        }
        Ok(sources)
    }

    // The places of the slots of a column of the joined rows.
    fn places<'b>(&self, number: usize, placed: &PlacedPairs<'b>) -> &'b [SlotPlace]
        requires { HavePlaces placed.now }
        ensures { result.now ≡ map (place_for self.now number) placed.now.pairs.now }
    {
        if number < self.left_types.len() {
            placed.lefts
        } else {
            placed.rights
        }
    }

    // The type of a column's slots.
    fn type_of(&self, number: usize) -> DataType
        requires { number < width_of self.now }
        ensures { result ≡ slice_index_or (side_types self.now) number DataType.Utf8 }
    {
        let count = self.left_types.len();
        if number < count {
            self.left_types[number]
        } else {
            self.right_types[number - count]
        }
    }

    // The slots of a column of the joined rows: those of the left columns, and then those of the
    // right ones.
    fn slots(
        &self,
        alloc: Global,
        number: usize,
        pairs: &[Pair],
    ) -> Result<Vec<SlotRef<'a>>, AllocError>
        requires sides { AreSides self.now }
        requires there { ArePairs self.now pairs.now }
        requires number { number < width_of self.now }
        ensures { IfOk result (λ slots. HoldCells self.now number pairs.now slots.items) }
    {
        let count = self.left_types.len();
        if number < count {
            self.left_slots(alloc, number, pairs)
        } else {
            self.right_slots(alloc, number - count, pairs)
        }
    }

    // The slots of a column of the left batch, one for each pair.
    #[tactic(auto, using(crate::proofs::Typed::typed_long))]
    fn left_slots(
        &self,
        alloc: Global,
        number: usize,
        pairs: &[Pair],
    ) -> Result<Vec<SlotRef<'a>>, AllocError>
        requires sides { AreSides self.now }
        requires there { ArePairs self.now pairs.now }
        requires number { number < length self.now.left_types.now }
        ensures { IfOk result (λ slots. HoldCells self.now number pairs.now slots.items) }
    {
        let column = &self.left.columns()[number];
        let mut slots = Vec::with_capacity(alloc, pairs.len())?;
        for pair in pairs {
            let place = pair.left;
            slots.push(SlotRef { column, place })?;
        }
        Ok(slots)
    }

    // The slots of a column of the right batches, one for each pair.
    #[tactic(auto, using(crate::proofs::Typed::typed_long))]
    fn right_slots(
        &self,
        alloc: Global,
        number: usize,
        pairs: &[Pair],
    ) -> Result<Vec<SlotRef<'a>>, AllocError>
        requires sides { AreSides self.now }
        requires there { ArePairs self.now pairs.now }
        requires number { number < length self.now.right_types.now }
        ensures { IfOk result
            (λ slots. HoldCells self.now
            (length self.now.left_types.now + number) pairs.now slots.items) }
    {
        let mut slots = Vec::with_capacity(alloc, pairs.len())?;
        for pair in pairs {
            let column = &self.rights[pair.batch as usize].columns()[number];
            let place = pair.row;
            slots.push(SlotRef { column, place })?;
        }
        Ok(slots)
    }
}

// Whether slots of a type are copied as they are: those of a dictionary are not.
fn is_plain(data_type: DataType) -> bool
    ensures { result ≡ true → copied_type data_type ≡ data_type }
{
    !matches!(data_type, DataType::Dictionary(_))
}
