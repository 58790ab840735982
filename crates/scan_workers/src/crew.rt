//! The reader, and the workers next to it.

ghost use Rattle.std.specs.Prelude.{◌≡◌, ◌<◌, ℕ, All, IfOk, OnErr};

use crate::claims::{Claimer, Word, open, split};
use crate::exchange::Exchange;
use crate::morsel_answer::{Truth, let_go};
use crate::morsel_work::{Gate, Reads, Work};
use crate::pull::{Hand, InTurn, Pull};
use crate::slots::Bounds;
use crate::window::Window;
use std::alloc::{AllocError, Global};
use std::marker::{Brand, PhantomData};
use std::sync::Wait;
use std::thread::{Threads, join_mut};

// So many claimers more.
fn split_all(
    alloc: Global,
    word: &Word,
    me: &mut Claimer,
    workers: usize,
) -> Result<Vec<Claimer>, AllocError>
    requires word { (me.old.table_id ≡ word.now.shared.table_id)
        × (word.now.shared.table_id.words ≡ 1) }
    ensures theirs { IfOk result
        (λ v. All (λ claimer. claimer.table_id ≡ word.now.shared.table_id) v.items) }
    ensures mine { me.new.table_id ≡ me.old.table_id }
{
    let mut claimers = Vec::new(alloc);
    for _ in 0..workers {
        claimers.push(split(word, me))?;
    }
    Ok(claimers)
}

// The claim word, and who draw from it: the reader, and others.
#[derive(Drop)]
struct Crew {
    word: Word,
    me: Claimer,
    others: Vec<Claimer>,
}

// A word, the reader, and so many others.
fn crew_of(alloc: Global, others: usize) -> Result<Crew, AllocError>
    ensures word { IfOk result (λ crew. crew.word.shared.table_id.words ≡ 1) }
    ensures mine { IfOk result (λ crew. crew.me.table_id ≡ crew.word.shared.table_id) }
    ensures theirs { IfOk result
        (λ crew. All (λ claimer. claimer.table_id ≡ crew.word.shared.table_id) crew.others.items) }
{
    let (word, mut me) = open(alloc)?;
    let others = split_all(alloc, &word, &mut me, others)?;
    Ok(Crew { word, me, others })
}

// Who works next to others.
trait Side {
    type Out;

    ghost begins: { Self → Type 0 };

    ghost does: { Self → Self.Out → Self → Type 0 };

    fn work(&mut self) -> Self::Out
        requires { begins self.old }
        ensures { does self.old result self.new };
}

// Works next to claimers, each of which answers morsels in a thread of its own where one can be
// made. This thread starts them all.
#[cycle(threads)]
fn work_beside<K, A, W, G, R, M>(
    exchange: &Exchange<'_, K, A, W, G, R>,
    claimers: &mut [Claimer],
    mine: &mut M,
) -> M::Out
where
    K: Truth<A> + Send + Sync,
    A: Send,
    W: Work<Answer = A> + Sync,
    G: Gate + Sync,
    R: Threads + Wait + Sync,
    M: Side,
    requires ready { W.ready exchange.now.work.now }
    requires theirs { All (λ claimer. claimer.table_id ≡ exchange.now.word.shared.table_id)
        claimers.old }
    requires mine { M.begins mine.old }
    ensures { M.does mine.old result mine.new }
{
    match claimers.split_first_mut() {
        Some((first, others)) => work_beside_first(exchange, first, others, mine),
        None => mine.work(),
    }
}

// The same next to a claimer and others.
#[cycle(threads)]
fn work_beside_first<K, A, W, G, R, M>(
    exchange: &Exchange<'_, K, A, W, G, R>,
    first: &mut Claimer,
    others: &mut [Claimer],
    mine: &mut M,
) -> M::Out
where
    K: Truth<A> + Send + Sync,
    A: Send,
    W: Work<Answer = A> + Sync,
    G: Gate + Sync,
    R: Threads + Wait + Sync,
    M: Side,
    requires ready { W.ready exchange.now.work.now }
    requires first { first.old.table_id ≡ exchange.now.word.shared.table_id }
    requires others { All (λ claimer. claimer.table_id ≡ exchange.now.word.shared.table_id)
        others.old }
    requires mine { M.begins mine.old }
    ensures { M.does mine.old result mine.new }
{
    let mut helper = ||
        requires { W.ready exchange.now.work.now
            × (first.now.table_id ≡ exchange.now.word.shared.table_id) }
    { exchange.answer_all(first) };
    let mut rest = || -> M::Out
        requires { W.ready exchange.now.work.now
            × All (λ claimer. claimer.table_id ≡ exchange.now.word.shared.table_id) others.now
            × M.begins mine.now }
        ensures { M.does mine.entry.now result mine.exit.now }
    { work_beside(exchange, others, mine) };
    let (_, out) = join_mut(exchange.rt, &mut helper, &mut rest);
    out
}

// The answers that are read, and who reads them.
struct ReaderSide<'a, 'h, 's, K: Truth<A>, A, W: Work<Answer = A>, G, R, S> {
    pull: Pull<'a, 'h, K, A, W, G, R>,
    reader: &'s mut S,
}

impl<'a, 'h, 's, K, A, W, G, R, S> Side for ReaderSide<'a, 'h, 's, K, A, W, G, R, S>
where
    K: Truth<A>,
    W: Work<Answer = A>,
    G: Gate,
    R: Wait,
    S: Reads<A>,
{
    type Out = S::Out;

    ghost use Rattle.std.specs.Prelude.{◌≡◌};

    ghost begins = { λ r. (r.pull.given ≡ 0) × W.ready r.pull.exchange.now.work.now
        × S.takes r.reader.now (λ n a. ∥ K.right n a ∥₁) (W.count r.pull.exchange.now.work.now) };

    ghost does = { λ old out new. (new.reader.ghost_name ≡ old.reader.ghost_name)
        × S.reads old.reader.now (λ n a. ∥ K.right n a ∥₁)
        (W.count old.pull.exchange.now.work.now) out new.reader.now };

    fn work(&mut self) -> S::Out {
        let out = self.reader.read(&mut self.pull);
        self.pull.exchange.window.close(self.pull.exchange.rt);
        out
    }
}

// Reads the answers, with these claimers at work beside.
fn read_beside<K, A, W, G, R, S>(
    exchange: &Exchange<'_, K, A, W, G, R>,
    me: Claimer,
    claimers: &mut [Claimer],
    reader: &mut S,
) -> S::Out
where
    K: Truth<A> + Send + Sync,
    A: Drop + Send,
    W: Work<Answer = A> + Sync,
    G: Gate + Sync,
    R: Threads + Wait + Sync,
    S: Reads<A>,
    requires ready { W.ready exchange.now.work.now }
    requires mine { me.table_id ≡ exchange.now.word.shared.table_id }
    requires theirs { All (λ claimer. claimer.table_id ≡ exchange.now.word.shared.table_id)
        claimers.old }
    requires takes { S.takes reader.old (λ n a. ∥ K.right n a ∥₁) (W.count exchange.now.work.now) }
    ensures read { S.reads reader.old (λ n a. ∥ K.right n a ∥₁)
        (W.count exchange.now.work.now) result reader.new }
{
    let mut pull = Pull {
        exchange,
        me,
        given: 0,
        hand: Hand::Empty,
    };
    let draws_first = !exchange.work.chooses_first();
    if draws_first {
        pull.draw_first();
    }
    let mut reading = ReaderSide { pull, reader };
    let out = work_beside(exchange, claimers, &mut reading);
    let ReaderSide { pull, reader } = reading;
    take_back(reader);
    put_down(pull);
    out
}

// Lets go of what the reader has in hand at its end.
fn put_down<K: Truth<A>, A: Drop, W: Work<Answer = A>, G, R>(pull: Pull<'_, '_, K, A, W, G, R>) {
    let Pull {
        exchange: _,
        me: _,
        given: _,
        hand,
    } = pull;
    match hand {
        Hand::Empty => {}
        Hand::Drawn(_) => {}
        Hand::Did(done) => let_go(Some(done)),
    }
}

// Does nothing, but that the reader is used after the work ties what was read to it.
fn take_back<T>(x: &mut T)
    ensures { x.new ≡ x.old }
{}

// Reads the answers, each made when it is read.
fn read_in_turn<K, A, W, G, S>(alloc: Global, work: &W, gate: &G, reader: &mut S) -> S::Out
where
    K: Truth<A>,
    W: Work<Answer = A>,
    G: Gate,
    S: Reads<A>,
    requires ready { W.ready work.now }
    requires right { (n : ℕ) (a : A) → W.answers work.now n a → ∥ K.right n a ∥₁ }
    requires takes { S.takes reader.old (λ n a. ∥ K.right n a ∥₁) (W.count work.now) }
    ensures read { S.reads reader.old (λ n a. ∥ K.right n a ∥₁)
        (W.count work.now) result reader.new }
{
    let mut answers: InTurn<'_, K, A, W, G> = InTurn {
        alloc,
        work,
        gate,
        given: 0,
        of: PhantomData,
    };
    reader.read(&mut answers)
}

// How many threads work next to the reader, with it one of so many workers. Where no morsel is
// chosen first, each of them may have one large morsel, and the threads are one more. So where
// there are no more morsels than workers, the one that a kernel puts on the reader's processor
// finds none left, and nobody waits for it.
fn helpers_of<W: Work>(work: &W, workers: usize) -> usize
    requires { 1 < workers }
{
    if work.chooses_first() {
        workers - 1
    } else {
        workers
    }
}

// So many morsels each worker may have begun, with those whose answers are there.
const MOST_BEGUN: usize = 3;

// How many morsels there are, and how many may be begun at once. So many answers may be made or
// there as there are workers.
fn bounds_of<W: Work>(work: &W, workers: usize) -> Bounds {
    let begun = if work.chooses_first() {
        workers.saturating_mul(MOST_BEGUN)
    } else {
        workers
    };
    Bounds {
        count: work.count(),
        begun,
        made: workers,
    }
}

// Lets go of what lies in the window at the end.
fn close<K: Truth<A>, A: Drop, W: Work<Answer = A>, G, R>(exchange: Exchange<'_, K, A, W, G, R>) {
    let Exchange {
        rt: _,
        alloc: _,
        work: _,
        gate: _,
        window,
        word: _,
    } = exchange;
    window.discard();
}

// Reads the answers, which at least two workers make.
fn read_at_once<K, A, W, G, R, S>(
    rt: &R,
    alloc: Global,
    work: &W,
    workers: usize,
    gate: &G,
    reader: &mut S,
) -> Result<S::Out, AllocError>
where
    K: Truth<A> + Send + Sync,
    A: Drop + Send,
    W: Work<Answer = A> + Sync,
    G: Gate + Sync,
    R: Threads + Wait + Sync,
    S: Reads<A>,
    requires ready { W.ready work.now }
    requires workers { 1 < workers }
    requires right { (n : ℕ) (a : A) → W.answers work.now n a → ∥ K.right n a ∥₁ }
    requires known { (n : ℕ) (a : A) → ∥ K.right n a ∥₁ → ∥ W.answers work.now n a ∥₁ }
    requires takes { S.takes reader.old (λ n a. ∥ K.right n a ∥₁) (W.count work.now) }
    ensures read { IfOk result
        (λ out. S.reads reader.old (λ n a. ∥ K.right n a ∥₁) (W.count work.now) out reader.new) }
    ensures kept { OnErr result (reader.new ≡ reader.old) }
{
    let window: Window<K, A> = Window::new(alloc, bounds_of(work, workers))?;
    let crew = match crew_of(alloc, helpers_of(work, workers)) {
        Ok(crew) => crew,
        Err(refused) => {
            window.discard();
            return Err(refused);
        }
    };
    let Crew {
        word,
        me,
        mut others,
    } = crew;
    let exchange = Exchange {
        rt,
        alloc,
        work,
        gate,
        window,
        word,
    };
    let out = read_beside(&exchange, me, others.as_mut_slice(), reader);
    close(exchange);
    Ok(out)
}

// As `in_order`, where the right answers have a name.
fn in_order_of<K, A, W, G, R, S>(
    rt: &R,
    alloc: Global,
    work: &W,
    workers: usize,
    gate: &G,
    reader: &mut S,
) -> Result<S::Out, AllocError>
where
    K: Truth<A> + Send + Sync,
    A: Drop + Send,
    W: Work<Answer = A> + Sync,
    G: Gate + Sync,
    R: Threads + Wait + Sync,
    S: Reads<A>,
    requires ready { W.ready work.now }
    requires right { (n : ℕ) (a : A) → W.answers work.now n a → ∥ K.right n a ∥₁ }
    requires known { (n : ℕ) (a : A) → ∥ K.right n a ∥₁ → ∥ W.answers work.now n a ∥₁ }
    requires takes { S.takes reader.old (λ n a. ∥ K.right n a ∥₁) (W.count work.now) }
    ensures read { IfOk result
        (λ out. S.reads reader.old (λ n a. ∥ K.right n a ∥₁) (W.count work.now) out reader.new) }
    ensures kept { OnErr result (reader.new ≡ reader.old) }
{
    if workers < 2 || work.count() < 2 {
        return Ok(read_in_turn::<K, A, W, G, S>(alloc, work, gate, reader));
    }
    read_at_once::<K, A, W, G, R, S>(rt, alloc, work, workers, gate, reader)
}

/// Has the answers read in the order of the morsels. So many workers make them. One is the reader,
/// where the next answer is not there yet. The others are threads next to it, and one thread more
/// is started. It does nothing where morsels are chosen first, and else it answers what is left. No
/// more answers are held at once than there are workers. With fewer than two, or fewer than two
/// morsels, no thread is started.
///
/// # Errors
///
/// `AllocError` where memory is refused. Nothing was read then, and no morsel was begun.
pub fn in_order<A, W, G, R, S>(
    rt: &R,
    alloc: Global,
    work: &W,
    workers: usize,
    gate: &G,
    reader: &mut S,
) -> Result<S::Out, AllocError>
where
    A: Drop + Send,
    W: Work<Answer = A> + Sync,
    G: Gate + Sync,
    R: Threads + Wait + Sync,
    S: Reads<A>,
    requires ready { W.ready work.now }
    requires takes { S.takes reader.old (λ n a. ∥ W.answers work.now n a ∥₁) (W.count work.now) }
    ensures read { IfOk result (λ out. S.reads reader.old (λ n a. ∥ W.answers work.now n a ∥₁)
        (W.count work.now) out reader.new) }
    ensures kept { OnErr result (reader.new ≡ reader.old) }
{
    in_order_of::<Brand, A, W, G, R, S>(rt, alloc, work, workers, gate, reader)
}
