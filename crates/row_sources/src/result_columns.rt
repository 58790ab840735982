//! What a result takes of a source.

ghost use Rattle.std.specs.Prelude.{◌≡◌, IfOk, IsTrue, length};
ghost use Rattle.typed_plan.specs.TypedPlans.{has_columns};
ghost use Rattle.batch_skipping.specs.ChosenColumns.{are_within};
ghost use Rattle.row_sources.specs.JoinedRows.{IsSource, source_at};
ghost use Rattle.row_sources.specs.Showing.{shown_of};
ghost use Rattle.row_sources.specs.FilteredSource.{IsFilteredSource, source_of, filtered_source_at};
ghost use Rattle.row_sources.specs.FilteredSource.{unfiltered};
ghost use Rattle.row_sources.specs.UnfilteredRows.{IsUnfiltered};

use crate::build::FilteredSource;
use crate::columns::{numbers_below, picked};
use crate::picker::Picker;
use crate::row_source::UnfilteredRows;
use crate::rows::{Rows, Source};
use std::alloc::{AllocError, Global};
use std::sync::Arc;
use typed_plan::Columns;

impl FilteredSource {
    // What gives these columns of its rows.
    pub(crate) fn shown(self, alloc: Global, columns: &Columns) -> Result<Rows, AllocError>
        requires sourced { IsFilteredSource self }
        requires there { IsTrue (has_columns (length self.columns.items) columns.now) }
        ensures { IfOk result (λ rows. rows ≡ shown_of columns.now (filtered_source_at self)) }
    {
        let shown = picked(alloc, columns, self.columns.as_slice())?;
        let picker = Picker {
            filters: self.filters,
            read: self.columns,
            shown,
        };
        Ok(Rows::new(alloc, self.source, Arc::new(alloc, picker)?))
    }

    // All rows of its columns, which are read without its filters, and these filters.
    pub(crate) fn unfiltered(self, alloc: Global) -> Result<UnfilteredRows, AllocError>
        requires { IsFilteredSource self }
        ensures { IfOk result (λ made. IsUnfiltered (source_of self) made) }
    {
        let picker = Picker {
            filters: self.filters,
            read: numbers_below(alloc, self.columns.len())?,
            shown: Vec::new(alloc),
        };
        Ok(UnfilteredRows {
            rows: all_rows(alloc, self.source, self.columns)?,
            picker,
            types: self.types,
        })
    }
}

// What gives these columns of all rows of a source.
fn all_rows(alloc: Global, source: Source, columns: Vec<usize>) -> Result<Rows, AllocError>
    requires source { IsSource source }
    requires there { IsTrue (are_within (length (source_at source).types) columns.items) }
    ensures { IfOk result (λ rows. rows ≡ unfiltered columns.items (source_at source)) }
{
    let mut read = Vec::new(alloc);
    read.extend_from_slice(columns.as_slice())?;
    let picker = Picker {
        filters: Vec::new(alloc),
        read,
        shown: columns,
    };
    Ok(Rows::new(alloc, source, Arc::new(alloc, picker)?))
}
