//! The answers of all morsels at once.

ghost use Rattle.std.specs.Prelude.{◌≡◌, [], length, IfOk, OnOk};
ghost use Rattle.scan_workers.specs.Right.{AllRight};

use crate::crew::in_order;
use crate::morsel_work::{Answers, Gate, Reads, Work};
use std::alloc::{AllocError, Global};
use std::sync::Wait;
use std::thread::Threads;

// The answers so far.
#[derive(Drop)]
struct AnswerCollector<A> {
    answers: Vec<A>,
}

impl<A: Drop> Reads<A> for AnswerCollector<A> {
    type Out = Result<(), AllocError>;

    ghost use Rattle.std.specs.Prelude.{◌≡◌, [], length, OnOk};
    ghost use Rattle.scan_workers.specs.Right.{AllRight};

    ghost takes = { λ _ _ _. Unit {0} };

    ghost reads = { λ old right count out new. old.answers.items ≡ [] →
        OnOk out ((length new.answers.items ≡ count) × AllRight right 0 new.answers.items) };

    #[tactic(auto, using(crate::proofs::Rightly::more_right))]
    fn read<P: Answers<A>>(&mut self, answers: &mut P) -> Result<(), AllocError> {
        while let Some(answer) = answers.next() {
            self.answers.push(answer)?;
        }
        Ok(())
    }
}

/// The answers of all morsels, in their order, which so many workers make.
///
/// # Errors
///
/// `AllocError` where memory is refused, after the end of every worker.
pub fn run<A, W, G, R>(
    rt: &R,
    alloc: Global,
    work: &W,
    workers: usize,
    gate: &G,
) -> Result<Vec<A>, AllocError>
where
    A: Drop + Send,
    W: Work<Answer = A> + Sync,
    G: Gate + Sync,
    R: Threads + Wait + Sync,
    requires { W.ready work.now }
    ensures { IfOk result (λ v. (length v.items ≡ W.count work.now)
        × AllRight (λ n a. ∥ W.answers work.now n a ∥₁) 0 v.items) }
{
    let mut collected = AnswerCollector {
        answers: Vec::new(alloc),
    };
    in_order(rt, alloc, work, workers, gate, &mut collected)??;
    Ok(collected.answers)
}
