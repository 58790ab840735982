//! The rows of one place.

ghost use Rattle.std.specs.Prelude.{◌≡◌, ◌≤◌, ◌<◌, [], IfOk, OnOk, length, true};
ghost use Rattle.table_versions.specs.StoredTables.{table_of};
ghost use Rattle.row_sources.specs.Choices.{IsChoice};
ghost use Rattle.row_sources.specs.PlaceCursor.{begin_in, end_in, IsPlaced};
ghost use Rattle.row_sources.specs.Parting.{part_of};
ghost use Rattle.row_sources.specs.Picking.{IsPick, pick_of};
ghost use Rattle.row_sources.specs.Running.{EndsAtChoice, FindsTurn, picked_of};
ghost use Rattle.row_sources.specs.Sources.{rows_of_place};
ghost use Rattle.row_sources.specs.declared.turn.Patience.TheVariants.{Endless};

use crate::choice::Choice;
use crate::cursor::Cursor;
use crate::opened_table::OpenedTable;
use crate::picker::Picker;
use crate::piece::Piece;
use crate::turn::{Turn, TurnContext};
use std::alloc::{AllocError, Global};

// A table, and where a scan of a range of its rows has come to.
pub(crate) struct PlaceRows {
    pub(crate) table: OpenedTable,
    pub(crate) cursor: Cursor,
}

// Written out, so that dropping it is one call (docs/DECISIONS.md).
impl Drop for PlaceRows {
    fn drop(self) {
        let PlaceRows {
            table: _,
            cursor: _,
        } = self;
    }
}

impl PlaceRows {
    // What is picked of the next piece of a batch of the table of which a row is, where the turn
    // comes to it.
    pub(crate) fn turn(
        &mut self,
        picker: &Picker,
        choice: &mut Choice,
        looking: &mut TurnContext,
    ) -> Result<Turn<Piece>, AllocError>
        requires placed { IsPlaced self.old.table self.old.cursor }
        requires pick { IsPick (length self.old.table.schema.fields) (pick_of picker.now) }
        requires choice { IsChoice self.old.table self.old.cursor (pick_of picker.now) choice.old }
        ensures placed { IsPlaced self.new.table self.new.cursor }
        ensures choice { IsChoice self.new.table self.new.cursor (pick_of picker.now) choice.new }
        ensures table { self.new.table ≡ self.old.table }
        ensures endless { looking.old.patience ≡ Endless → looking.new.patience ≡ Endless }
        ensures choice_kept { EndsAtChoice looking.new.patience →
            EndsAtChoice looking.old.patience }
        ensures found { FindsTurn looking.old.patience
            (picked_of (pick_of picker.now) (rows_of_place self.old)) result
            (picked_of (pick_of picker.now) (rows_of_place self.new)) }
    {
        while self.cursor.at < self.cursor.to {
            self.choose(looking.alloc, picker, choice)?;
            if looking.ends_at_choice() {
                return Ok(Turn::Working);
            }
            choice.made = false;
            let number = self.cursor.batch;
            let part = self.cursor.open(&self.table);
            looking.spend(part.to - part.from, picker);
            if let Some(batch) = picker.give(looking.alloc, &part, &choice.selection)? {
                return Ok(Turn::Given(Piece { batch, number }));
            }
            if looking.is_over() {
                return Ok(Turn::Working);
            }
        }
        Ok(Turn::End)
    }

    // Chooses the rows of the next part, where they are not chosen yet. Without a filter nothing is
    // to be chosen.
    fn choose(&self, alloc: Global, picker: &Picker, choice: &mut Choice) -> Result<(), AllocError>
        requires more { self.now.cursor.at < self.now.cursor.to }
        requires placed { IsPlaced self.now.table self.now.cursor }
        requires pick { IsPick (length self.now.table.schema.fields) (pick_of picker.now) }
        requires choice { IsChoice self.now.table self.now.cursor (pick_of picker.now) choice.old }
        ensures choice { IsChoice self.now.table self.now.cursor (pick_of picker.now) choice.new }
        ensures made { OnOk result (0 < length picker.now.filters.items → choice.new.made ≡ true) }
    {
        if choice.made || picker.filters.is_empty() {
            return Ok(());
        }
        let part = self.cursor.peek(&self.table);
        choice.selection.clear();
        picker.select(alloc, &part, &mut choice.selection)?;
        choice.made = true;
        Ok(())
    }

    // The first row of the range in a batch, counted from the batch's first row. The range begins
    // in the first batch.
    fn begin_in(&self, number: usize) -> usize
        requires placed { IsPlaced self.now.table self.now.cursor }
        requires there { number < length self.now.table.batches }
        ensures { result ≡ begin_in self.now.table self.now.cursor number }
    {
        if number == 0 { self.cursor.from } else { 0 }
    }

    // The first row after those of the range in a batch, counted from the batch's first row. The
    // range ends in the last batch.
    fn end_in(&self, number: usize) -> usize
        requires placed { IsPlaced self.now.table self.now.cursor }
        requires there { number < length self.now.table.batches }
        requires few { self.now.cursor.to ≤ length (table_of self.now.table).rows }
        ensures { result ≡ end_in self.now.table self.now.cursor number }
    {
        let (rows, count) = (self.table.batch(number).rows(), self.table.batch_count());
        if number + 1 < count {
            return rows;
        }
        rows - (self.table.rows() - self.cursor.to)
    }

    // The rows of the range in one batch of the table, as those of a table that has no other.
    pub(crate) fn part(&self, alloc: Global, number: usize) -> Result<PlaceRows, AllocError>
        requires placed { IsPlaced self.now.table self.now.cursor }
        requires unopened { (rows_of_place self.now).opened ≡ [] }
        requires there { number < length (rows_of_place self.now).batches }
        ensures placed { IfOk result (λ part. IsPlaced part.table part.cursor) }
        ensures part { IfOk result
            (λ part. rows_of_place part
            ≡ part_of number (rows_of_place part).unseen (rows_of_place self.now)) }
    {
        let (from, to) = (self.begin_in(number), self.end_in(number));
        let table = self.table.only(alloc, number)?;
        let cursor = Cursor::new(&table, from, to);
        Ok(PlaceRows { table, cursor })
    }
}
