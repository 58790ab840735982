// What the workers and the reader hand to each other. Nothing of it is `Drop`: who has an answer
// hands it on, and cannot lose it.

ghost use Rattle.std.specs.Prelude.{◌≡◌};

use std::marker::{Brand, PhantomData};

// What answers are right.
pub trait Truth<A> {
    ghost use Rattle.std.specs.Prelude.{ℕ};

    ghost right: { ℕ → A → Type 0 };
}

impl<A> Truth<A> for Brand {
    ghost right = { λ _ _. Unit {0} };
}

// A morsel's number, and its answer. No value of it is made of an answer that is not right.
pub struct MorselAnswer<K: Truth<A>, A> {
    pub number: usize,
    pub answer: A,
    of: PhantomData<K>,
    pub ghost right: { ∥ K.right number answer ∥₁ },
}

impl<K: Truth<A>, A> MorselAnswer<K, A> {
    pub fn new(number: usize, answer: A) -> MorselAnswer<K, A>
        requires { ∥ K.right number answer ∥₁ }
        ensures { (result.number ≡ number) × (result.answer ≡ answer) }
    {
        MorselAnswer {
            number,
            answer,
            of: PhantomData,
        }
    }

    // The answer, for who reads it.
    pub fn into_answer(self) -> A
        ensures right { ∥ K.right self.number result ∥₁ }
        ensures same { result ≡ self.answer }
    {
        let MorselAnswer {
            number: _,
            answer,
            of: _,
        } = self;
        answer
    }
}

// How far a morsel is.
#[derive(Clone, Copy, Drop)]
pub enum Stage {
    // It was begun.
    Begun,
    // A turn of it is over, and there is more to be made.
    Turned,
    // Its answer is made.
    Made,
}

// What was done of a morsel.
pub struct MorselProgress<K: Truth<A>, A> {
    pub answered: MorselAnswer<K, A>,
    pub stage: Stage,
}

// Lets go of what was done of a morsel, if anything was. Only who may drop an answer can call it,
// and the code of the workers may not.
pub fn let_go<K: Truth<A>, A: Drop>(done: Option<MorselProgress<K, A>>) {
    match done {
        Some(MorselProgress { answered, stage: _ }) => drop(answered.into_answer()),
        None => {}
    }
}

// What is to be done next.
pub enum Task<T> {
    // To draw a morsel, and to begin it.
    Begin,
    // To make more of this answer.
    Make(T),
}

// What the reader does while the answer for which it asks is not there.
pub enum Interim<T> {
    // Something that is to be done.
    Task(Task<T>),
    // It gives back control: a turn of that morsel is over, in another thread.
    Turned,
}
