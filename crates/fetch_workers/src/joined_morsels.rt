//! The payloads of all morsels, in their order.

ghost use Rattle.std.specs.Prelude.{◌≡◌, ◌≢◌, ◌≤◌, ◌+◌, ℕ, true, None, option_map};
ghost use Rattle.scan_base.specs.Limits.{most_answer_rows};
ghost use Rattle.arrow_types.specs.declared.schema.Schema.{Schema};
ghost use Rattle.row_sources.specs.declared.turn.Patience.TheVariants.{Endless};
ghost use Rattle.fetch_stream.specs.Morsels.{MorselsAt};
ghost use Rattle.fetch_workers.specs.inside.Coming.{ComesIn};
ghost use Rattle.fetch_workers.specs.inside.JoinedMorsels.{AnswersMorsels, GivesCounted};
ghost use Rattle.fetch_workers.specs.inside.JoinedMorsels.{GivesFirst};
ghost use Rattle.fetch_workers.specs.inside.JoinedMorsels.{GivesJoined, GivesPresent, Goes};
ghost use Rattle.fetch_workers.specs.inside.JoinedMorsels.{given_of};

use crate::morsel_part::Part;
use fetch_stream::{Morsels, Parcel, Payloads};
use row_sources::{Patience, Turn, TurnContext};
use scan_base::Fault;
use scan_exec::MAX_ANSWER_ROWS;
use scan_workers::{Answers, NextAnswer};
use std::alloc::Global;
use std::marker::Model;
use work_watch::pace::TURN_MORSELS;

// The stream that its morsels make up: the payload of the schema, unless one has told it before,
// and those of the morsels as they are answered, in their order. It counts the rows of all.
#[derive(Drop)]
pub(crate) struct JoinedMorsels<'x, 'a, A: Part, P: Answers<A>> {
    pub(crate) morsels: &'x Morsels<'x>,
    pub(crate) answers: &'a mut P,
    pub(crate) begun: bool,
    // The morsel whose payloads come next, and how many rows those before it had.
    pub(crate) present: Option<A>,
    pub(crate) done: usize,
    pub(crate) refused: Option<Fault>,
}

impl<'x, 'a, A: Part, P: Answers<A>> Model for JoinedMorsels<'x, 'a, A, P> {
    ghost use Rattle.std.specs.Prelude.{option_map};
    ghost use Rattle.fetch_stream.specs.Streams.{StreamAt};
    ghost use Rattle.fetch_workers.specs.inside.JoinedMorsels.{AnswersMorsels, IsJoined};
    ghost use Rattle.fetch_workers.specs.inside.JoinedMorsels.{joined_stream};

    ghost Value = { StreamAt };

    ghost view = { λ j. joined_stream j.morsels.now (P.given j.answers.now) j.begun
        (option_map A.stream j.present) j.done j.refused };

    ghost invariant = { λ j. P.ready j.answers.now
        × AnswersMorsels A.stream j.morsels.now P.right (P.count j.answers.now)
        × IsJoined j.morsels.now j.begun (option_map A.stream j.present) j.done j.refused };
}

impl<'x, 'a, A: Part, P: Answers<A>> Payloads for JoinedMorsels<'x, 'a, A, P> {
    ghost stream = { λ s. s };

    // How many rows the workers have still to look at is not told.
    ghost unseen = { λ _. 0 };

    ghost waits = { λ _. Unit {0} };

    fn turn(&mut self, alloc: Global, patience: Patience) -> Result<Turn<Parcel>, Fault> {
        if let Some(fault) = self.refused {
            return Err(fault);
        }
        let given = if self.begun {
            let looking = TurnContext { alloc, patience };
            turn_of_rows(&looking, self.answers, &mut self.present, &mut self.done)
        } else {
            first_parcel(alloc, self.morsels)
        };
        match &given {
            Ok(_) => self.begun = true,
            Err(fault) => self.refused = Some(*fault),
        }
        given
    }
}

// The payload of the schema, as the first one.
fn first_parcel(alloc: Global, morsels: &Morsels<'_>) -> Result<Turn<Parcel>, Fault>
    ensures { GivesFirst morsels.now.schema result }
{
    let only = morsels.first_payload(alloc)?;
    Ok(Turn::Given(Parcel::one(alloc, only)?))
}

// For how many rows a turn of one morsel has patience.
fn of_morsel(patience: Patience) -> Patience
    ensures { patience ≡ Endless → result ≡ Endless }
{
    match patience {
        Patience::Endless => Patience::Endless,
        Patience::Rows(rows) => Patience::Rows(rows / TURN_MORSELS),
        Patience::Choice => Patience::Choice,
    }
}

// Whether a turn is over in which so many morsels ended.
fn is_over(patience: Patience, ended: usize) -> bool
    ensures { result ≡ true → patience ≢ Endless }
{
    match patience {
        Patience::Endless => false,
        Patience::Rows(_) | Patience::Choice => ended >= TURN_MORSELS,
    }
}

// A turn to the next parcel of a morsel, where those before it had so many rows. The rows of all
// are counted as they are taken of the scan. So an answer of too many rows is refused before the
// first parcel of the batch that has them.
fn turn_counted<A: Part>(
    looking: &TurnContext,
    part: &mut A,
    done: usize,
) -> Result<Turn<Parcel>, Fault>
    requires begun { (A.stream part.old).begun ≡ true }
    requires going { (A.stream part.old).refused ≡ None }
    requires few { done + (A.stream part.old).given ≤ most_answer_rows }
    ensures { GivesCounted looking.now.patience (A.stream part.old) done result
        (A.stream part.new) }
{
    match part.turn(looking.alloc, of_morsel(looking.patience)) {
        Ok(Turn::Given(parcel)) => {
            if part.taken() > MAX_ANSWER_ROWS - done {
                return Err(Fault::ResultTooLarge);
            }
            Ok(Turn::Given(parcel))
        }
        Ok(Turn::Working) => Ok(Turn::Working),
        Ok(Turn::End) => Ok(Turn::End),
        Err(fault) => Err(fault),
    }
}

// A turn to the next parcel of the present morsel, if there is one. After its last one none is
// present, and its rows are counted.
fn turn_of_present<A: Part>(
    looking: &TurnContext,
    present: &mut Option<A>,
    done: &mut usize,
) -> Result<Turn<Parcel>, Fault>
    requires goes { (schema : Schema) × Goes schema (option_map A.stream present.old) }
    requires few { done.old + given_of (option_map A.stream present.old) ≤ most_answer_rows }
    ensures { (morsels : MorselsAt) (answered : ℕ) →
        Goes morsels.schema (option_map A.stream present.old) →
        GivesPresent looking.now.patience morsels answered (option_map A.stream present.old)
        done.old result (option_map A.stream present.new) done.new }
{
    let Some(part) = present else {
        return Ok(Turn::End);
    };
    match turn_counted(looking, part, *done) {
        Ok(Turn::Given(parcel)) => Ok(Turn::Given(parcel)),
        Ok(Turn::Working) => Ok(Turn::Working),
        Ok(Turn::End) => {
            *done += part.given();
            *present = None;
            Ok(Turn::End)
        }
        Err(fault) => Err(fault),
    }
}

// The next answer. Where patience has no end, it is waited for.
fn next_answer<A, P: Answers<A>>(patience: Patience, answers: &mut P) -> NextAnswer<A>
    requires ready { P.ready answers.old }
    ensures ready { P.ready answers.new }
    ensures count { P.count answers.new ≡ P.count answers.old }
    ensures comes { ComesIn patience P.right (P.count answers.old) (P.given answers.old) result
        (P.given answers.new) }
{
    match patience {
        Patience::Rows(_) | Patience::Choice => answers.turn(),
        Patience::Endless => match answers.next() {
            Some(answer) => NextAnswer::Given(answer),
            None => NextAnswer::End,
        },
    }
}

// A turn to the next parcel of the morsels that are still to be answered, if there is one. The
// morsel of which it is one is present then.
fn turn_of_later<A: Part, P: Answers<A>>(
    looking: &TurnContext,
    answers: &mut P,
    present: &mut Option<A>,
    done: usize,
) -> Result<Turn<Parcel>, Fault>
    requires ready { P.ready answers.old }
    requires right { (morsels : MorselsAt)
        × AnswersMorsels A.stream morsels P.right (P.count answers.old) }
    requires none { option_map A.stream present.old ≡ None }
    requires few { done ≤ most_answer_rows }
    ensures ready { P.ready answers.new }
    ensures count { P.count answers.new ≡ P.count answers.old }
    ensures gives { (morsels : MorselsAt) →
        AnswersMorsels A.stream morsels P.right (P.count answers.old) →
        GivesJoined looking.now.patience morsels (P.given answers.old) None done result
        (P.given answers.new) (option_map A.stream present.new) done }
{
    let mut ended = 0usize;
    loop {
        let mut part = match next_answer(looking.patience, answers) {
            NextAnswer::Given(part) => part,
            NextAnswer::Going => return Ok(Turn::Working),
            NextAnswer::End => return Ok(Turn::End),
        };
        match turn_counted(looking, &mut part, done) {
            Ok(Turn::Given(parcel)) => {
                *present = Some(part);
                return Ok(Turn::Given(parcel));
            }
            Ok(Turn::Working) => {
                *present = Some(part);
                return Ok(Turn::Working);
            }
            Ok(Turn::End) => {
                ended = ended.saturating_add(1);
                if is_over(looking.patience, ended) {
                    return Ok(Turn::Working);
                }
            }
            Err(fault) => return Err(fault),
        }
    }
}

// A turn to the parcel of the next rows: of the present morsel, or of the first one after it that
// has rows. `done` rows were those of the morsels before the present one.
fn turn_of_rows<A: Part, P: Answers<A>>(
    looking: &TurnContext,
    answers: &mut P,
    present: &mut Option<A>,
    done: &mut usize,
) -> Result<Turn<Parcel>, Fault>
    requires ready { P.ready answers.old }
    requires right { (morsels : MorselsAt)
        × AnswersMorsels A.stream morsels P.right (P.count answers.old)
        × Goes morsels.schema (option_map A.stream present.old) }
    requires few { done.old + given_of (option_map A.stream present.old) ≤ most_answer_rows }
    ensures ready { P.ready answers.new }
    ensures count { P.count answers.new ≡ P.count answers.old }
    ensures gives { (morsels : MorselsAt) →
        AnswersMorsels A.stream morsels P.right (P.count answers.old) →
        Goes morsels.schema (option_map A.stream present.old) → GivesJoined looking.now.patience
        morsels (P.given answers.old) (option_map A.stream present.old) done.old result
        (P.given answers.new) (option_map A.stream present.new) done.new }
{
    match turn_of_present(looking, present, done) {
        Ok(Turn::Given(parcel)) => Ok(Turn::Given(parcel)),
        Ok(Turn::Working) => Ok(Turn::Working),
        Ok(Turn::End) => turn_of_later(looking, answers, present, *done),
        Err(fault) => Err(fault),
    }
}
