//! Lists in pages of 256 handles.

ghost use Rattle.std.specs.Prelude.{◌≡◌, ◌<◌, ◌≤◌, ◌^◌, ◌∷◌, ◌++◌, [], Some, length, drop, map};
ghost use Rattle.std.specs.Prelude.{IfOk, slice_get};
ghost use Rattle.std.specs.Arc.{arc_value};

use crate::handles::{shared, shared_from};
use std::alloc::{AllocError, Global};
use std::marker::Model;
use std::sync::Arc;

// How many handles a full page has.
const PAGE_SIZE: usize = 256;

// A part of a list.
#[derive(Drop)]
struct Page<T> {
    handles: Vec<Arc<T>>,
}

impl<T> Model for Page<T> {
    ghost use Rattle.std.specs.Prelude.{List, map};
    ghost use Rattle.std.specs.Arc.{arc_value};
    ghost use Rattle.std.specs.Coded.{coded_list};

    ghost Value = { List T };

    ghost coded = { coded_list T.code };

    ghost view = { λ page. map arc_value page.handles.items };
}

impl<T: Drop> Page<T> {
    fn new(alloc: Global) -> Page<T>
        ensures { result ≡ [] }
    {
        Page {
            handles: Vec::new(alloc),
        }
    }

    fn len(&self) -> usize
        ensures { result ≡ length self.now }
    {
        self.handles.len()
    }

    fn get(&self, index: usize) -> &Arc<T>
        requires { index < length self.now }
        ensures { slice_get self.now index ≡ Some (arc_value result.now) }
    {
        &self.handles[index]
    }

    // The same items once more, with room for one more.
    fn share(&self, alloc: Global) -> Result<Page<T>, AllocError>
        ensures { IfOk result (λ page. page ≡ self.now) }
    {
        Ok(Page {
            handles: shared(alloc, self.handles.as_slice(), self.handles.len() + 1)?,
        })
    }

    // The handles from a place on, once more.
    fn share_from(&self, alloc: Global, first: usize) -> Result<Vec<Arc<T>>, AllocError>
        requires { first ≤ length self.now }
        ensures { IfOk result (λ rest. map arc_value rest.items ≡ drop first self.now) }
    {
        shared_from(alloc, self.handles.as_slice(), first)
    }

    // The page with one item more at its end.
    fn with(mut self, item: Arc<T>) -> Result<Page<T>, AllocError>
        ensures { IfOk result (λ page. page ≡ self ++ arc_value item ∷ []) }
    {
        self.handles.push(item)?;
        Ok(self)
    }
}

/// A list of handles. A longer one shares its full pages, and copies the handles of the last: at
/// most 255, and one for each full page. Contracts see it as the list of its items.
pub struct Pages<T> {
    full: Vec<Arc<Page<T>>>,
    last: Page<T>,
}

// Written out, so that dropping it is one call (docs/DECISIONS.md).
impl<T: Drop> Drop for Pages<T> {
    fn drop(self) {
        let Pages { full: _, last: _ } = self;
    }
}

impl<T> Model for Pages<T> {
    ghost use Rattle.std.specs.Prelude.{List, map};
    ghost use Rattle.std.specs.Arc.{arc_value};
    ghost use Rattle.std.specs.Coded.{coded_list};
    ghost use Rattle.shared_pages.specs.Pages.{joined, IsPaged};

    ghost Value = { List T };

    ghost coded = { coded_list T.code };

    ghost view = { λ pages. joined (map arc_value pages.full.items) pages.last };

    ghost invariant = { λ pages. IsPaged (map arc_value pages.full.items) pages.last };
}

impl<T: Drop> Pages<T> {
    /// No items. It takes no memory.
    pub fn new(alloc: Global) -> Pages<T>
        ensures { result ≡ [] }
    {
        Pages {
            full: Vec::new(alloc),
            last: Page::new(alloc),
        }
    }

    /// How many items there are.
    pub fn len(&self) -> usize
        requires { length self.now < 2 ^ 64 }
        ensures { result ≡ length self.now }
    {
        self.full.len() * PAGE_SIZE + self.last.len()
    }

    /// The handle of the item at a place, counted from 0. It is found by one division.
    pub fn get(&self, index: usize) -> &Arc<T>
        requires { index < length self.now }
        ensures { slice_get self.now index ≡ Some (arc_value result.now) }
    {
        let page = index / PAGE_SIZE;
        if page < self.full.len() {
            self.full[page].get(index % PAGE_SIZE)
        } else {
            self.last.get(index % PAGE_SIZE)
        }
    }

    /// The same items once more. It copies a handle for each full page, and those of the last.
    ///
    /// # Errors
    ///
    /// `AllocError` where memory is refused.
    pub fn share(&self, alloc: Global) -> Result<Pages<T>, AllocError>
        ensures { IfOk result (λ pages. pages ≡ self.now) }
    {
        let full = shared(alloc, self.full.as_slice(), self.full.len() + 1)?;
        let last = self.last.share(alloc)?;
        Ok(Pages { full, last })
    }

    /// The items from a place on, once more: the handles of those that stand in that place's page,
    /// and the pages after it. It copies at most 256 handles of them, one for each full page after,
    /// and those of the last.
    ///
    /// # Errors
    ///
    /// `AllocError` where memory is refused.
    pub fn share_from(
        &self,
        alloc: Global,
        first: usize,
    ) -> Result<(Vec<Arc<T>>, Pages<T>), AllocError>
        requires { first ≤ length self.now }
        ensures { IfOk result (λ rest. map arc_value rest.0.items ++ rest.1 ≡ drop first self.now) }
    {
        let page = first / PAGE_SIZE;
        if page < self.full.len() {
            let handles = self.full[page].share_from(alloc, first % PAGE_SIZE)?;
            let full = shared_from(alloc, self.full.as_slice(), page + 1)?;
            let last = self.last.share(alloc)?;
            return Ok((handles, Pages { full, last }));
        }
        let handles = self.last.share_from(alloc, first % PAGE_SIZE)?;
        Ok((handles, Pages::new(alloc)))
    }

    /// The list with one item more at its end.
    ///
    /// # Errors
    ///
    /// `AllocError` where memory is refused.
    pub fn with(self, alloc: Global, item: Arc<T>) -> Result<Pages<T>, AllocError>
        ensures { IfOk result (λ pages. pages ≡ self ++ arc_value item ∷ []) }
    {
        let Pages { mut full, last } = self;
        let last = last.with(item)?;
        if last.len() < PAGE_SIZE {
            return Ok(Pages { full, last });
        }
        full.push(Arc::new(alloc, last).map_err(|_| AllocError)?)?;
        Ok(Pages {
            full,
            last: Page::new(alloc),
        })
    }
}
