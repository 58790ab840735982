// The morsels that were begun and are not read: each lies in the slot of its number, or a thread
// has it in hand.

ghost use Rattle.std.specs.Prelude.{◌≡◌, ◌↔◌, IfNone, IfOk, IfSome, IsSome, IsTrue, None};
ghost use Rattle.std.specs.Prelude.{replicate};
ghost use Rattle.scan_workers.specs.MorselRing.{IsInHand, Lies, MayBegin, asked, at_first};
ghost use Rattle.scan_workers.specs.MorselRing.{begun_one};
ghost use Rattle.scan_workers.specs.MorselRing.{given_next, laid, taken};

use crate::morsel_answer::{MorselAnswer, MorselProgress, Stage, Truth, let_go};
use std::alloc::{AllocError, Global};
use std::marker::Model;

// Of so many morsels those that were begun and are not read.
pub struct MorselRing<K: Truth<A>, A> {
    // Each in the slot of its number modulo the slots.
    slots: Vec<Option<MorselProgress<K, A>>>,
    count: usize,
    // The morsel for which the reader asks. It is done with those before it.
    read: usize,
    // How many answers the reader was given, and how many morsels were given out to be begun.
    given: usize,
    begun: usize,
}

impl<K: Truth<A>, A> Model for MorselRing<K, A> {
    ghost use Rattle.scan_workers.specs.MorselRing.{RingAt, IsRing, ring_at};

    ghost Value = { RingAt };

    ghost view = { λ h. ring_at (λ done. done.answered.number) h.count h.read h.given h.begun
        h.slots.items };

    ghost invariant = { λ h. IsRing
        (ring_at (λ done. done.answered.number) h.count h.read h.given h.begun h.slots.items) };
}

// So many empty slots.
fn empty_slots<T>(alloc: Global, count: usize) -> Result<Vec<Option<T>>, AllocError>
    ensures { IfOk result (λ slots. slots.items ≡ replicate count None) }
{
    let mut slots = Vec::with_capacity(alloc, count)?;
    for _index in 0..count {
        slots.push_reserved(None);
    }
    Ok(slots)
}

// Whether a morsel lies in a slot whose answer is made, or of which more is to be made.
fn lies_in<K: Truth<A>, A>(slot: &Option<MorselProgress<K, A>>, made: bool) -> bool
    ensures { IsTrue result → IsSome slot.now }
{
    match slot {
        Some(done) => matches!(done.stage, Stage::Made) == made,
        None => false,
    }
}

impl<K: Truth<A>, A> MorselRing<K, A> {
    // Nothing is begun, of so many morsels, and as many as there is room for may be.
    pub fn new(alloc: Global, count: usize, room: usize) -> Result<MorselRing<K, A>, AllocError>
        ensures { IfOk result (λ held. held ≡ at_first count room) }
    {
        let slots = empty_slots(alloc, room)?;
        Ok(MorselRing {
            slots,
            count,
            read: 0,
            given: 0,
            begun: 0,
        })
    }

    // How many morsels there are.
    pub fn count(&self) -> usize
        ensures { result ≡ self.now.count }
    {
        self.count
    }

    // The morsel for which the reader asks.
    pub fn read(&self) -> usize
        ensures { result ≡ self.now.read }
    {
        self.read
    }

    // The reader is done with what it was given, and asks for the next answer.
    pub fn ask(&mut self)
        ensures { self.new ≡ asked self.old }
    {
        self.read = self.given;
    }

    // Whether one more may be begun.
    pub fn may_begin(&self) -> bool
        ensures { IsTrue result ↔ MayBegin self.now }
    {
        self.begun < self.count && self.begun - self.read < self.slots.len()
    }

    // Gives out one more to be begun, into a thread's hand.
    pub fn begin(&mut self)
        requires { MayBegin self.old }
        ensures { self.new ≡ begun_one self.old }
    {
        self.begun += 1;
    }

    // Whether a thread has a morsel in hand.
    pub fn is_in_hand(&self, number: usize) -> bool
        ensures { IsTrue result ↔ IsInHand self.now number }
    {
        if number < self.given || self.begun <= number {
            return false;
        }
        self.slots[number % self.slots.len()].is_none()
    }

    // Lays a morsel into its slot, out of a thread's hand.
    pub fn lay(&mut self, done: MorselProgress<K, A>)
        requires { IsInHand self.old done.answered.number }
        ensures { self.new ≡ laid self.old done.answered.number }
    {
        let place = done.answered.number % self.slots.len();
        let before = std::mem::replace(&mut self.slots[place], Some(done));
        let None = before else {
            unreachable!();
        };
    }

    // Whether more is to be made of what lies in the slot of a number.
    pub fn has_unmade(&self, number: usize) -> bool {
        match number.checked_rem(self.slots.len()) {
            Some(place) => lies_in(&self.slots[place], false),
            None => false,
        }
    }

    // Takes a morsel out of the slot of a number, of which more is to be made.
    pub fn take_unmade(&mut self, number: usize) -> Option<MorselAnswer<K, A>>
        ensures some { IfSome result (λ answered. Lies self.old answered.number
            × (self.new ≡ taken self.old answered.number)) }
        ensures none { IfNone result (self.new ≡ self.old) }
    {
        let place = number.checked_rem(self.slots.len())?;
        if !lies_in(&self.slots[place], false) {
            return None;
        }
        let lying = self.slots[place].take();
        match lying {
            Some(MorselProgress { answered, stage: _ }) => Some(answered),
            None => unreachable!(),
        }
    }

    // Gives the reader the answer for which it asks, if it is made.
    pub fn give(&mut self) -> Option<MorselAnswer<K, A>>
        ensures some { IfSome result (λ answered. (answered.number ≡ self.old.read)
            × Lies self.old self.old.read × (self.new ≡ given_next self.old)) }
        ensures none { IfNone result (self.new ≡ self.old) }
    {
        let place = self.read.checked_rem(self.slots.len())?;
        if !lies_in(&self.slots[place], true) {
            return None;
        }
        self.given = self.read + 1;
        let lying = self.slots[place].take();
        match lying {
            Some(MorselProgress { answered, stage: _ }) => Some(answered),
            None => unreachable!(),
        }
    }
}

impl<K: Truth<A>, A: Drop> MorselRing<K, A> {
    // Lets go of all that no one reads.
    pub fn discard(self) {
        let MorselRing {
            mut slots,
            count: _,
            read: _,
            given: _,
            begun: _,
        } = self;
        while let Some(slot) = slots.pop() {
            let_go(slot);
        }
        slots.destroy_empty();
    }
}
