// The claim word: all workers draw their morsels from it. The lists of what they drew hold together
// each number below the word once.

ghost use Rattle.std.specs.Prelude.{◌≡◌, ◌++◌, ◌∷◌, [], IfOk};

use atomic_table::{Play, Seat, Split, Table, TableRule};
use std::alloc::{AllocError, Global};
use std::collections::LinkedList;

// What a worker knows: the numbers that it drew. No value of it is made.
pub type DrawnNumbers = LinkedList<u64>;

// The rule of the word.
pub struct ClaimLaw;

impl TableRule<(), DrawnNumbers, ()> for ClaimLaw {
    ghost use Rattle.std.specs.Prelude.{[]};
    ghost use Rattle.scan_workers.specs.Claims.{IsClaimed};

    ghost holds = { λ _ s. IsClaimed s };

    ghost first = { λ _. [] };
}

// A worker draws the number that the word had.
pub struct DrawMorsel;

impl Play<(), DrawnNumbers> for DrawMorsel {
    ghost use Rattle.scan_workers.specs.Claims.{DrewMorsel};

    ghost then = { DrewMorsel };
}

// A new worker comes, which has drawn nothing.
pub struct NewWorker;

impl Split<DrawnNumbers> for NewWorker {
    ghost use Rattle.std.specs.Prelude.{[]};

    ghost left = { λ drawn. drawn };

    ghost right = { λ _. [] };
}

pub type Word = Table<(), DrawnNumbers, (), ClaimLaw, Global>;

// One that draws from the word.
pub type Claimer = Seat<(), DrawnNumbers>;

// A word at 0, and the one claimer.
pub fn open(alloc: Global) -> Result<(Word, Claimer), AllocError>
    ensures word { IfOk result
        (λ pair. (pair.1.table_id ≡ pair.0.shared.table_id) × (pair.0.shared.table_id.words ≡ 1)) }
    ensures drawn { IfOk result (λ pair. pair.1.me ≡ ([], [])) }
{
    Word::of_words(alloc, &[0], &())
}

// Draws the next number.
pub fn draw(word: &Word, me: &mut Claimer) -> u64
    requires word { (me.old.table_id ≡ word.now.shared.table_id)
        × (word.now.shared.table_id.words ≡ 1) }
    ensures word { me.new.table_id ≡ me.old.table_id }
    ensures drawn { me.new.me ≡ (me.old.me.0 ++ result ∷ [], me.old.me.1) }
{
    word.shared.fetch_add::<DrawMorsel>(me, 0, 1)
}

// A second claimer.
pub fn split(word: &Word, me: &mut Claimer) -> Claimer
    requires word { (me.old.table_id ≡ word.now.shared.table_id)
        × (word.now.shared.table_id.words ≡ 1) }
    ensures word { (me.new.table_id ≡ me.old.table_id) × (result.table_id ≡ me.old.table_id) }
    ensures drawn { (me.new.me ≡ me.old.me) × (result.me ≡ ([], [])) }
{
    word.shared.split_seat::<NewWorker>(me)
}
