//! Lists of handles with another one among them.

ghost use Rattle.std.specs.Prelude.{◌≡◌, ◌≤◌, ◌∷◌, ◌++◌, length, map, take, drop, IfOk};
ghost use Rattle.std.specs.Arc.{arc_value};

use shared_pages::handles::{extended, shared};
use std::alloc::{AllocError, Global};
use std::ops::Range;
use std::sync::Arc;

// The same handles once more, with this one in the place of those of a range.
pub(crate) fn spliced<T: Drop>(
    alloc: Global,
    handles: &[Arc<T>],
    place: Range<usize>,
    new: Arc<T>,
) -> Result<Vec<Arc<T>>, AllocError>
    requires ordered { place.start ≤ place.end }
    requires within { place.end ≤ length handles.now }
    ensures { IfOk result (λ all. map arc_value all.items
        ≡ take place.start (map arc_value handles.now)
        ++ arc_value new ∷ drop place.end (map arc_value handles.now)) }
{
    let mut front = shared(alloc, &handles[..place.start], handles.len() + 1)?;
    front.push(new)?;
    let all = extended(front, &handles[place.end..])?;
    Ok(all)
}
