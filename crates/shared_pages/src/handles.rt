//! Handles that share what stands after them.

ghost use Rattle.std.specs.Prelude.{◌≡◌, ◌≤◌, ◌++◌, length, drop, map, IfOk};
ghost use Rattle.std.specs.Arc.{arc_value};

use std::alloc::{AllocError, Global};
use std::sync::Arc;

/// The same handles once more, in a list with room for so many.
///
/// # Errors
///
/// `AllocError` where memory is refused.
pub fn shared<T: Drop>(
    alloc: Global,
    handles: &[Arc<T>],
    room: usize,
) -> Result<Vec<Arc<T>>, AllocError>
    ensures { IfOk result (λ all. map arc_value all.items ≡ map arc_value handles.now) }
{
    extended(Vec::with_capacity(alloc, room)?, handles)
}

/// The handles from a place on, once more.
///
/// # Errors
///
/// `AllocError` where memory is refused.
pub fn shared_from<T: Drop>(
    alloc: Global,
    handles: &[Arc<T>],
    first: usize,
) -> Result<Vec<Arc<T>>, AllocError>
    requires { first ≤ length handles.now }
    ensures { IfOk result
        (λ rest. map arc_value rest.items ≡ drop first (map arc_value handles.now)) }
{
    let rest = &handles[first..];
    shared(alloc, rest, rest.len())
}

/// The list with the same handles once more at its end.
///
/// # Errors
///
/// `AllocError` where memory is refused.
pub fn extended<T: Drop>(list: Vec<Arc<T>>, handles: &[Arc<T>]) -> Result<Vec<Arc<T>>, AllocError>
    ensures { IfOk result (λ all. map arc_value all.items
        ≡ map arc_value list.items ++ map arc_value handles.now) }
{
    let mut all = list;
    for handle in handles {
        all.push(Arc::try_clone(handle)?)?;
    }
    Ok(all)
}
