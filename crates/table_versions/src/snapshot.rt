//! A version of the catalog, shared.

ghost use Rattle.std.specs.Prelude.{◌≡◌};
ghost use Rattle.std.specs.Arc.{arc_value};

use crate::catalog::CatalogVersion;
use std::alloc::AllocError;
use std::marker::Model;
use std::sync::Arc;

/// A shared version of the catalog, and its number: how many puts were accepted up to it.
#[derive(Drop)]
pub struct Snapshot {
    number: u64,
    catalog: Arc<CatalogVersion>,
}

impl Model for Snapshot {
    ghost use Rattle.std.specs.Arc.{arc_value};
    ghost use Rattle.table_versions.specs.StoredTables.{VersionAt};

    ghost Value = { VersionAt };

    ghost view = { λ s. record { number = s.number; catalog = arc_value s.catalog } };
}

impl Snapshot {
    /// The version of this number. It takes no memory.
    pub fn new(number: u64, catalog: Arc<CatalogVersion>) -> Snapshot
        ensures { result ≡ record { number = number; catalog = arc_value catalog } }
    {
        Snapshot { number, catalog }
    }

    /// The version's number.
    pub fn number(&self) -> u64
        ensures { result ≡ self.now.number }
    {
        self.number
    }

    /// The tables.
    pub fn catalog(&self) -> &CatalogVersion
        ensures { result.now ≡ self.now.catalog }
    {
        &self.catalog
    }
}

impl Clone for Snapshot {
    ghost is_clone = { λ snapshot copy. copy ≡ snapshot };

    fn clone(&self) -> Result<Snapshot, AllocError> {
        Ok(Snapshot {
            number: self.number,
            catalog: Arc::try_clone(&self.catalog)?,
        })
    }
}
