// What the workers of one call share, and what each of them does.

ghost use Rattle.std.specs.Prelude.{◌≡◌, ◌<◌, ℕ};

use crate::claims::{Claimer, Word, draw};
use crate::morsel_answer::{MorselAnswer, MorselProgress, Stage, Task, Truth};
use crate::morsel_work::{Gate, Work};
use crate::window::Window;
use std::alloc::Global;
use std::sync::Wait;

// What the workers share.
pub struct Exchange<'a, K: Truth<A>, A, W: Work<Answer = A>, G, R> {
    pub rt: &'a R,
    pub alloc: Global,
    pub work: &'a W,
    pub gate: &'a G,
    pub window: Window<K, A>,
    pub word: Word,
    pub ghost words: { word.shared.table_id.words ≡ 1 },
    pub ghost right: { (n : ℕ) (a : A) → W.answers work.now n a → ∥ K.right n a ∥₁ },
    pub ghost known: { (n : ℕ) (a : A) → ∥ K.right n a ∥₁ → ∥ W.answers work.now n a ∥₁ },
}

impl<'a, K: Truth<A>, A, W: Work<Answer = A>, G: Gate, R: Wait> Exchange<'a, K, A, W, G, R> {
    // Begins a morsel, if there is one of this number.
    pub fn begin(&self, number: usize) -> Option<MorselProgress<K, A>>
        requires { W.ready self.now.work.now }
    {
        if number >= self.work.count() {
            return None;
        }
        self.gate.enter(number);
        let answered = MorselAnswer::new(number, self.work.answer(self.alloc, number));
        let stage = Stage::Begun;
        Some(MorselProgress { answered, stage })
    }

    // Makes more of an answer, for a while. Whether there is more to be made then.
    fn go_on(&self, answered: &mut MorselAnswer<K, A>) -> bool
        requires { W.ready self.now.work.now }
        ensures { answered.new.number ≡ answered.old.number }
    {
        self.work.go_on(self.alloc, &mut answered.answer)
    }

    // The same with an answer that is held.
    fn make(&self, mut answered: MorselAnswer<K, A>) -> MorselProgress<K, A>
        requires { W.ready self.now.work.now }
        ensures { result.answered.number ≡ answered.number }
    {
        let stage = if self.go_on(&mut answered) {
            Stage::Turned
        } else {
            Stage::Made
        };
        MorselProgress { answered, stage }
    }

    // Does what is to be done next.
    pub fn perform(
        &self,
        me: &mut Claimer,
        task: Task<MorselAnswer<K, A>>,
    ) -> Option<MorselProgress<K, A>>
        requires ready { W.ready self.now.work.now }
        requires mine { me.old.table_id ≡ self.now.word.shared.table_id }
        ensures mine { me.new.table_id ≡ me.old.table_id }
    {
        match task {
            Task::Begin => self.begin(draw(&self.word, me) as usize),
            Task::Make(answered) => Some(self.make(answered)),
        }
    }

    // Works next to the reader, until nothing is left, or no more answers are read.
    pub fn answer_all(&self, me: &mut Claimer)
        requires ready { W.ready self.now.work.now }
        requires mine { me.old.table_id ≡ self.now.word.shared.table_id }
    {
        let mut done = None;
        for _ in self.rt.forever() {
            match self.window.hand_in(self.rt, done) {
                Some(task) => done = self.perform(me, task),
                None => return,
            }
        }
        unreachable!()
    }
}
