//! What holds of all messages. Each function here has an empty body: its contract is a law.

ghost use Rattle.ipc_batch.specs.Laws.{ReadIsBrought, SaidIsBrought, TellingExtends};
ghost use Rattle.ipc_batch.specs.Laws.{SayOneThing, JoinRows, RowsFitSchema};
ghost use Rattle.ipc_batch.specs.Laws.{GlancesComeFirst, NegativesLieOutside, DictionariesReadBack};
ghost use Rattle.ipc_batch.specs.DressedBatches.{DressedMessagesSay};
ghost use Rattle.ipc_batch.specs.WrittenMessages.{PartsReadBack};

/// What is read of a message, in the order in which it is read, is just what it brings: what
/// `Message.fbs` and the columnar format, in their own words and in no order, have it say.
pub fn read_is_brought()
    ensures { ReadIsBrought }
{}

/// What messages say, one after another, is just what they bring.
pub fn said_is_brought()
    ensures { SaidIsBrought }
{}

/// What a reader answers extends what messages said before.
pub fn telling_extends()
    ensures { TellingExtends }
{}

/// Messages say at most one schema and one list of rows.
pub fn messages_say_one_thing()
    ensures { SayOneThing }
{}

/// Messages that stand one after another say the rows of both, in order.
pub fn messages_join_their_rows()
    ensures { JoinRows }
{}

/// Each row that messages say has one value for each field of their schema.
pub fn rows_fit_the_schema()
    ensures { RowsFitSchema }
{}

/// What is refused before anything grows is what the message says.
pub fn glances_come_first()
    ensures { GlancesComeFirst }
{}

/// A buffer of a negative offset or length is refused, and so is a negative body length.
pub fn negatives_lie_outside()
    ensures { NegativesLieOutside }
{}

/// What is read of written parts is those parts, whatever the types of their columns are.
pub fn parts_read_back()
    ensures { PartsReadBack }
{}

/// What is read after the message of a dictionary is read over its values.
pub fn dictionaries_read_back()
    ensures { DictionariesReadBack }
{}

/// Batches, each after the dictionaries of its own texts, say their rows.
#[tactic(auto, using(crate::proofs::Dressing::dressed_say))]
pub fn dressed_messages_say()
    ensures { DressedMessagesSay }
{}
