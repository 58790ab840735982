// What is to be done of the morsels that were begun, and for which one the reader asks.

ghost use Rattle.std.specs.Prelude.{◌≡◌, true, false, Some, IfErr, IfNone, IfSome, MatchOption};
ghost use Rattle.std.specs.Prelude.{OnOk, option_map};
ghost use Rattle.scan_workers.specs.MorselRing.{IsInHand, Lies, MayBegin, Seeks, Tasks, asked};
ghost use Rattle.scan_workers.specs.MorselRing.{begun_one};
ghost use Rattle.scan_workers.specs.MorselRing.{laid, taken};

use crate::morsel_answer::{Interim, MorselAnswer, MorselProgress, Stage, Task, Truth};
use crate::morsel_ring::MorselRing;
use std::alloc::{AllocError, Global};

// How many morsels there are, how many may be begun and not read at once, and how many of those may
// be made or there.
#[derive(Clone, Copy, Drop)]
pub struct Bounds {
    pub count: usize,
    pub begun: usize,
    pub made: usize,
}

// The morsels from the one on for which the reader asks, and how far they are.
pub struct Slots<K: Truth<A>, A> {
    held: MorselRing<K, A>,
    // How many answers may be made or there at once.
    most_made: usize,
    // How many answers are made.
    made: usize,
    // How many lie in slots of which more is to be made.
    unmade: usize,
    // Whether a turn of the reader's morsel is over since it asked.
    turned: bool,
    // Whether no more answers are read.
    closed: bool,
}

impl<K: Truth<A>, A> Slots<K, A> {
    // Slots for as many morsels as may be begun.
    pub fn new(alloc: Global, bounds: Bounds) -> Result<Slots<K, A>, AllocError> {
        let held = MorselRing::new(alloc, bounds.count, bounds.begun)?;
        Ok(Slots {
            held,
            most_made: bounds.made,
            made: 0,
            unmade: 0,
            turned: false,
            closed: false,
        })
    }

    // The reader asks for its next answer.
    pub fn ask(&mut self)
        ensures { self.new.held ≡ asked self.old.held }
    {
        self.held.ask();
        self.turned = false;
    }

    // No more answers are read.
    pub fn close(&mut self)
        ensures { self.new.held ≡ self.old.held }
    {
        self.closed = true;
    }

    // Whether no more answers are read.
    pub fn is_closed(&self) -> bool {
        self.closed
    }

    // Counts what was done of a morsel, for which the reader asks or not. Whether it tells the
    // reader something of that.
    fn count(&mut self, stage: Stage, asked: bool) -> bool
        ensures { self.new.held ≡ self.old.held }
    {
        match stage {
            Stage::Begun => {
                self.unmade = self.unmade.saturating_add(1);
                false
            }
            Stage::Turned => {
                self.unmade = self.unmade.saturating_add(1);
                self.turned = self.turned || asked;
                asked
            }
            Stage::Made => {
                self.made = self.made.saturating_add(1);
                asked
            }
        }
    }

    // Takes in what was done of a morsel, if anything was. Whether it tells the reader something of
    // the morsel for which it asks. Who has no such morsel in hand keeps what it has.
    pub fn take_in(
        &mut self,
        done: Option<MorselProgress<K, A>>,
    ) -> Result<bool, MorselAnswer<K, A>>
        ensures laid { OnOk result (MatchOption done (self.new.held ≡ self.old.held)
            (λ done. IsInHand self.old.held done.answered.number
            × (self.new.held ≡ laid self.old.held done.answered.number))) }
        ensures kept { IfErr result
            (λ answered. (option_map (λ done. done.answered) done ≡ Some answered)
            × ¬ IsInHand self.old.held answered.number × (self.new.held ≡ self.old.held)) }
    {
        match done {
            Some(done) => self.lay(done),
            None => Ok(false),
        }
    }

    // The same, where something was done.
    fn lay(&mut self, done: MorselProgress<K, A>) -> Result<bool, MorselAnswer<K, A>>
        ensures laid { OnOk result (IsInHand self.old.held done.answered.number
            × (self.new.held ≡ laid self.old.held done.answered.number)) }
        ensures kept { IfErr result (λ answered. (answered ≡ done.answered)
            × ¬ IsInHand self.old.held answered.number × (self.new.held ≡ self.old.held)) }
    {
        let number = done.answered.number;
        if !self.held.is_in_hand(number) {
            let MorselProgress { answered, stage: _ } = done;
            return Err(answered);
        }
        let asked = number == self.held.read();
        let tells = self.count(done.stage, asked);
        self.held.lay(done);
        Ok(tells)
    }

    // Takes the first one of which more may be made.
    fn take_first(&mut self) -> Option<MorselAnswer<K, A>>
        ensures some { IfSome result (λ answered. Lies self.old.held answered.number
            × (self.new.held ≡ taken self.old.held answered.number)) }
        ensures none { IfNone result (self.new.held ≡ self.old.held) }
    {
        if self.unmade == 0 {
            return None;
        }
        let read = self.held.read();
        for number in read..read.saturating_add(self.most_made) {
            match self.held.take_unmade(number) {
                Some(answered) => {
                    self.unmade = self.unmade.saturating_sub(1);
                    return Some(answered);
                }
                None => {}
            }
        }
        None
    }

    // Whether more may be made of one.
    fn may_make(&self) -> bool {
        if self.unmade == 0 {
            return false;
        }
        let read = self.held.read();
        for number in read..read.saturating_add(self.most_made) {
            if self.held.has_unmade(number) {
                return true;
            }
        }
        false
    }

    // Gives out one more to be begun, if one may be.
    pub fn begin(&mut self) -> bool
        ensures begun { result ≡ true →
            MayBegin self.old.held × (self.new.held ≡ begun_one self.old.held) }
        ensures none { result ≡ false → self.new.held ≡ self.old.held }
    {
        if !self.held.may_begin() {
            return false;
        }
        self.held.begin();
        true
    }

    // What is to be done next: more of the first answer of which more may be made, or else one more
    // is begun.
    pub fn task(&mut self) -> Option<Task<MorselAnswer<K, A>>>
        ensures { Tasks (λ answered. answered.number) self.old.held result self.new.held }
    {
        match self.take_first() {
            Some(answered) => Some(Task::Make(answered)),
            None => {
                if self.begin() {
                    Some(Task::Begin)
                } else {
                    None
                }
            }
        }
    }

    // Whether there is something to be done.
    pub fn has_task(&self) -> bool {
        self.held.may_begin() || self.may_make()
    }

    // Whether nothing is left to be done by those who don't read.
    pub fn is_over(&self) -> bool {
        self.closed || self.made >= self.held.count()
    }

    // The morsel for which the reader asks.
    pub fn read(&self) -> usize
        ensures { result ≡ self.now.held.read }
    {
        self.held.read()
    }

    // The answer for which the reader asks, or what it does meanwhile, if there is anything.
    pub fn seek(&mut self) -> Option<Result<MorselAnswer<K, A>, Interim<MorselAnswer<K, A>>>>
        ensures { Seeks (λ answered. answered.number) self.old.held result self.new.held }
    {
        match self.held.give() {
            Some(answered) => Some(Ok(answered)),
            None => match self.task() {
                Some(task) => Some(Err(Interim::Task(task))),
                None if self.turned => Some(Err(Interim::Turned)),
                None => None,
            },
        }
    }
}

impl<K: Truth<A>, A: Drop> Slots<K, A> {
    // Lets go of all that no one reads.
    pub fn discard(self) {
        let Slots {
            held,
            most_made: _,
            made: _,
            unmade: _,
            turned: _,
            closed: _,
        } = self;
        held.discard();
    }
}
