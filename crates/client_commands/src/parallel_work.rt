//! Work that is done next to other work.

ghost use Rattle.std.specs.Prelude.{◌≡◌};

use std::thread;
use std::thread::Threads;

/// Work that is done once.
pub(crate) trait Work {
    /// What comes of it.
    type Out;

    // It may be done.
    ghost can_run: { Self → Type 0 };

    // What comes of it is this.
    ghost gives: { Self → Self.Out → Type 0 };

    /// Does it.
    fn run(self) -> Self::Out
        requires { can_run self }
        ensures { gives self result };
}

/// What comes of both: `ahead` is done in a thread of its own, or last where none can be made, and
/// the work in this thread.
pub(crate) fn work_beside<T: Threads, F: FnOnce() -> A + Send, A: Send, M: Work<Out = B> + Drop, B>(
    rt: &T,
    ahead: F,
    work: M,
) -> (A, B)
    requires ahead { F.pre ahead }
    requires work { M.can_run work }
    ensures ahead { F.post ahead result.0 }
    ensures work { M.gives work result.1 }
{
    let here = move || -> B
        requires { M.can_run work }
        ensures { M.gives work result }
    { work.run() };
    thread::join(rt, ahead, here)
}

/// Does nothing, but that this use of a reference that came back ties it to the one that was handed
/// in.
pub(crate) fn take_back<T>(x: &mut T)
    ensures { x.new ≡ x.old }
{}
