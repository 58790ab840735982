//! Versions by number.

ghost use Rattle.std.specs.Prelude.{◌≡◌, ◌<◌, ◌≤◌, ◌+◌, ◌-◌, ◌^◌, ◌∷◌, ◌++◌, [], Some, length, drop};
ghost use Rattle.std.specs.Prelude.{map, IfOk, slice_get};
ghost use Rattle.std.specs.Arc.{arc_value};
ghost use Rattle.scan_base.specs.Limits.{most_commits};
ghost use Rattle.version_log.specs.Index.{index_at};

use scan_base::HashSeed;
use shared_pages::Pages;
use shared_pages::handles::shared_from;
use std::alloc::{AllocError, Global};
use std::marker::Model;
use std::sync::Arc;
use table_versions::{CatalogVersion, Snapshot};

/// All versions so far, but for those that were dropped, numbered from 0: at most 65,537 are there.
/// Those from some number on stand in pages of 256, and the few before them in a list of their own.
/// A longer index shares that list, the full pages and all versions. Contracts see it as the number
/// of the oldest version that is there, and the tables of all versions from it on.
#[derive(Drop)]
pub struct VersionIndex {
    floor: u64,
    front: Arc<Vec<Arc<CatalogVersion>>>,
    later: Pages<CatalogVersion>,
    newest: Snapshot,
}

impl Model for VersionIndex {
    ghost use Rattle.std.specs.Prelude.{◌++◌, map};
    ghost use Rattle.std.specs.Arc.{arc_value};
    ghost use Rattle.version_log.specs.Index.{IndexAt, index_at, IsNewest};

    ghost Value = { IndexAt };

    ghost view = { λ index. index_at index.floor
        (map arc_value (arc_value index.front).items ++ index.later) };

    ghost invariant = { λ index. IsNewest (index_at index.floor
        (map arc_value (arc_value index.front).items ++ index.later)) index.newest };
}

impl VersionIndex {
    /// Version 0 alone, which has no tables. Hashes of values begin with the seed.
    ///
    /// # Errors
    ///
    /// `AllocError` where memory is refused.
    pub fn new(alloc: Global, seed: HashSeed) -> Result<VersionIndex, AllocError>
        ensures { IfOk result (λ index. index ≡ index_at 0 ([] ∷ [])) }
    {
        let first = Arc::new(alloc, CatalogVersion::empty(alloc, seed)).map_err(|_| AllocError)?;
        let newest = Snapshot::new(0, Arc::try_clone(&first)?);
        let mut front = Vec::new(alloc);
        front.push(first)?;
        Ok(VersionIndex {
            floor: 0,
            front: Arc::new(alloc, front).map_err(|_| AllocError)?,
            later: Pages::new(alloc),
            newest,
        })
    }

    /// The number of the oldest version that is there.
    pub fn floor(&self) -> u64
        ensures { result ≡ self.now.floor }
    {
        self.floor
    }

    /// The newest version, which is never dropped. It takes no memory.
    pub fn newest(&self) -> &Snapshot
        ensures last { result.now.number + 1 ≡ self.now.floor + length self.now.versions }
        ensures kept { self.now.floor ≤ result.now.number }
        ensures tables { slice_get self.now.versions (result.now.number - self.now.floor)
            ≡ Some result.now.catalog }
        ensures few { length self.now.versions ≤ most_commits + 1 }
    {
        &self.newest
    }

    /// The versions so far, and this one after them. It copies at most 256 handles of pages and 255
    /// of versions, and no table.
    ///
    /// # Errors
    ///
    /// `AllocError` where memory is refused.
    pub fn with(&self, alloc: Global, version: CatalogVersion) -> Result<VersionIndex, AllocError>
        requires room { length self.now.versions ≤ most_commits }
        requires number { self.now.floor + length self.now.versions < 2 ^ 64 }
        ensures { IfOk result
            (λ index. index ≡ index_at self.now.floor (self.now.versions ++ version ∷ [])) }
    {
        let handle = Arc::new(alloc, version).map_err(|_| AllocError)?;
        let newest = Snapshot::new(self.newest.number() + 1, Arc::try_clone(&handle)?);
        Ok(VersionIndex {
            floor: self.floor,
            front: Arc::try_clone(&self.front)?,
            later: self.later.share(alloc)?.with(alloc, handle)?,
            newest,
        })
    }

    /// The versions from a number on. Those below it are dropped: their memory is given back where
    /// nobody else has them. It copies at most 256 handles of pages and 511 of versions, and no
    /// table.
    ///
    /// # Errors
    ///
    /// `AllocError` where memory is refused.
    pub fn without(&self, alloc: Global, floor: u64) -> Result<VersionIndex, AllocError>
        requires kept { self.now.floor ≤ floor }
        requires newest { floor < self.now.floor + length self.now.versions }
        ensures { IfOk result (λ index. index
            ≡ index_at floor (drop (floor - self.now.floor) self.now.versions)) }
    {
        let (front, later) = self.from_place(alloc, (floor - self.floor) as usize)?;
        Ok(VersionIndex {
            floor,
            front: Arc::new(alloc, front).map_err(|_| AllocError)?,
            later,
            newest: self.newest.clone()?,
        })
    }

    // The versions from a place on, in a list and in pages.
    fn from_place(
        &self,
        alloc: Global,
        place: usize,
    ) -> Result<(Vec<Arc<CatalogVersion>>, Pages<CatalogVersion>), AllocError>
        requires { place ≤ length self.now.versions }
        ensures { IfOk result (λ rest. map arc_value rest.0.items ++ rest.1
            ≡ drop place self.now.versions) }
    {
        let in_front = self.front.len();
        if place < in_front {
            let front = shared_from(alloc, self.front.as_slice(), place)?;
            return Ok((front, self.later.share(alloc)?));
        }
        self.later.share_from(alloc, place - in_front)
    }

    // The version at a place.
    fn version(&self, place: usize) -> &Arc<CatalogVersion>
        requires { place < length self.now.versions }
        ensures { slice_get self.now.versions place ≡ Some (arc_value result.now) }
    {
        let in_front = self.front.len();
        if place < in_front {
            return &self.front[place];
        }
        self.later.get(place - in_front)
    }

    /// The version of a number, found by its page.
    ///
    /// # Errors
    ///
    /// `AllocError` where one handle more of the version is refused.
    pub fn at(&self, number: u64) -> Result<Snapshot, AllocError>
        requires kept { self.now.floor ≤ number }
        requires reached { number < self.now.floor + length self.now.versions }
        ensures number { IfOk result (λ snapshot. snapshot.number ≡ number) }
        ensures tables { IfOk result
            (λ snapshot. slice_get self.now.versions (number - self.now.floor)
            ≡ Some snapshot.catalog) }
    {
        let version = Arc::try_clone(self.version((number - self.floor) as usize))?;
        Ok(Snapshot::new(number, version))
    }
}
