// The answers as the reader takes them, in the order of the morsels.

ghost use Rattle.std.specs.Prelude.{◌≡◌, ℕ, IfSome};

use crate::claims::{Claimer, draw};
use crate::exchange::Exchange;
use crate::morsel_answer::{Interim, MorselAnswer, MorselProgress, Stage, Task, Truth};
use crate::morsel_work::{Answers, Gate, NextAnswer, Work};
use std::alloc::Global;
use std::marker::PhantomData;
use std::sync::Wait;

// What the reader has in hand.
pub enum Hand<T> {
    Empty,
    // A morsel that it drew, and has not begun.
    Drawn(usize),
    // What it did, and has not handed in.
    Did(T),
}

// The answers in the order of the morsels. Where the next one is not there, the reader works as the
// others.
pub struct Pull<'a, 'h, K: Truth<A>, A, W: Work<Answer = A>, G, R> {
    pub exchange: &'a Exchange<'h, K, A, W, G, R>,
    pub me: Claimer,
    pub given: usize,
    pub hand: Hand<MorselProgress<K, A>>,
    pub ghost mine: { me.table_id ≡ exchange.now.word.shared.table_id },
}

impl<'a, 'h, K: Truth<A>, A, W: Work<Answer = A>, G: Gate, R: Wait> Pull<'a, 'h, K, A, W, G, R> {
    // Takes something into its empty hand.
    fn hold(&mut self, held: Hand<MorselProgress<K, A>>)
        requires empty { self.old.hand ≡ Hand.Empty }
        ensures held { self.new.hand ≡ held }
        ensures same { (self.new.exchange ≡ self.old.exchange) × (self.new.given ≡ self.old.given) }
    {
        let before = std::mem::replace(&mut self.hand, held);
        let Hand::Empty = before else {
            unreachable!();
        };
    }

    // Draws a morsel, which is for the reader alone, if one may be begun.
    pub fn draw_first(&mut self)
        requires empty { self.old.hand ≡ Hand.Empty }
        ensures same { (self.new.exchange ≡ self.old.exchange) × (self.new.given ≡ self.old.given) }
    {
        if self.exchange.window.give_out(self.exchange.rt) {
            let number = draw(&self.exchange.word, &mut self.me) as usize;
            self.hold(Hand::Drawn(number));
        }
    }

    // What the reader hands in: the morsel that it drew is begun first.
    fn take_done(&mut self) -> Option<MorselProgress<K, A>>
        requires { W.ready self.old.exchange.now.work.now }
        ensures empty { self.new.hand ≡ Hand.Empty }
        ensures same { (self.new.exchange ≡ self.old.exchange) × (self.new.given ≡ self.old.given) }
    {
        match std::mem::replace(&mut self.hand, Hand::Empty) {
            Hand::Empty => None,
            Hand::Drawn(number) => self.exchange.begin(number),
            Hand::Did(done) => Some(done),
        }
    }

    // Does what is to be done next. Whether a turn of a morsel is over.
    fn perform(&mut self, task: Task<MorselAnswer<K, A>>) -> bool
        requires ready { W.ready self.old.exchange.now.work.now }
        requires empty { self.old.hand ≡ Hand.Empty }
        ensures same { (self.new.exchange ≡ self.old.exchange) × (self.new.given ≡ self.old.given) }
    {
        match self.exchange.perform(&mut self.me, task) {
            Some(done) => {
                let turned = matches!(done.stage, Stage::Turned);
                self.hold(Hand::Did(done));
                turned
            }
            None => false,
        }
    }

    // The answer of a morsel, or none where a turn of one is over before it is there. What it does
    // before has an end, since only so many morsels may be begun and made.
    fn look(&mut self, number: usize) -> Option<MorselAnswer<K, A>>
        requires { W.ready self.old.exchange.now.work.now }
        ensures found { IfSome result (λ answered. answered.number ≡ number) }
        ensures same { (self.new.exchange ≡ self.old.exchange) × (self.new.given ≡ self.old.given) }
    {
        for _ in self.exchange.rt.forever() {
            let done = self.take_done();
            match self.exchange.window.seek(self.exchange.rt, number, done) {
                Ok(answered) => return Some(answered),
                Err(Interim::Turned) => return None,
                Err(Interim::Task(task)) => {
                    if self.perform(task) {
                        return None;
                    }
                }
            }
        }
        unreachable!()
    }

    // The answer of a morsel.
    fn find(&mut self, number: usize) -> MorselAnswer<K, A>
        requires { W.ready self.old.exchange.now.work.now }
        ensures found { result.number ≡ number }
        ensures same { (self.new.exchange ≡ self.old.exchange) × (self.new.given ≡ self.old.given) }
    {
        for _ in self.exchange.rt.forever() {
            match self.look(number) {
                Some(answered) => return answered,
                None => {}
            }
        }
        unreachable!()
    }
}

impl<'a, 'h, K: Truth<A>, A, W: Work<Answer = A>, G: Gate, R: Wait> Answers<A>
    for Pull<'a, 'h, K, A, W, G, R> {
    ghost right = { λ n a. ∥ K.right n a ∥₁ };

    ghost ready = { λ p. W.ready p.exchange.now.work.now };

    ghost count = { λ p. W.count p.exchange.now.work.now };

    ghost given = { λ p. p.given };

    fn next(&mut self) -> Option<A> {
        let number = self.given;
        if number >= self.exchange.work.count() {
            return None;
        }
        let answered = self.find(number);
        self.given = number + 1;
        Some(answered.into_answer())
    }

    fn turn(&mut self) -> NextAnswer<A> {
        let number = self.given;
        if self.exchange.work.count() <= number {
            return NextAnswer::End;
        }
        let found = self.look(number);
        match found {
            Some(answered) => {
                self.given = number + 1;
                NextAnswer::Given(answered.into_answer())
            }
            None => NextAnswer::Going,
        }
    }
}

// The answers in the order of the morsels, each made when it is read.
#[derive(Drop)]
pub struct InTurn<'a, K: Truth<A>, A, W: Work<Answer = A>, G> {
    pub alloc: Global,
    pub work: &'a W,
    pub gate: &'a G,
    pub given: usize,
    pub of: PhantomData<K>,
    pub ghost right: { (n : ℕ) (a : A) → W.answers work.now n a → ∥ K.right n a ∥₁ },
}

impl<'a, K: Truth<A>, A, W: Work<Answer = A>, G: Gate> Answers<A> for InTurn<'a, K, A, W, G> {
    ghost right = { λ n a. ∥ K.right n a ∥₁ };

    ghost ready = { λ t. W.ready t.work.now };

    ghost count = { λ t. W.count t.work.now };

    ghost given = { λ t. t.given };

    fn next(&mut self) -> Option<A> {
        let number = self.given;
        if number >= self.work.count() {
            return None;
        }
        self.given = number + 1;
        self.gate.enter(number);
        Some(self.work.answer(self.alloc, number))
    }
}
