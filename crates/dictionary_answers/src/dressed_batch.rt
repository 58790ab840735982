//! A batch over its own texts, and the messages of the dictionaries that come before it.

ghost use Rattle.std.specs.Prelude.{◌≡◌, ◌≤◌, ◌<◌, ◌^◌, All, IfNone, IfOk, IfSome, map};
ghost use Rattle.std.specs.List.{AllZip};
ghost use Rattle.scan_base.specs.Limits.{most_values};
ghost use Rattle.arrays.specs.Column.{IsColumn};
ghost use Rattle.ipc_batch.specs.MessageView.{written_seen};
ghost use Rattle.dictionary_answers.specs.Dress.{AreDressable, AreNumbered, IsDressedBatch};
ghost use Rattle.dictionary_answers.specs.Dress.{IsMessageOf};
ghost use Rattle.dictionary_answers.specs.Lengths.{dressed_length};
ghost use Rattle.dictionary_answers.specs.inside.WrittenLengths.{all_written, written_length};

use crate::{CodedBatch, ColumnDictionary, code_batch};
use arrays::laws::values_are_of_their_type;
use arrays::{Batch, Cells, Column};
use arrow_types::Schema;
use ipc_batch::{WrittenMessage, write_dictionary};
use scan_base::HashSeed;
use std::alloc::{AllocError, Global};

/// A batch whose columns of dictionaries lie over their own texts, and the messages of these
/// dictionaries, which come before it in this order.
#[derive(Drop)]
pub struct DressedBatch {
    pub dictionaries: Vec<WrittenMessage>,
    pub batch: Batch,
}

/// The same rows, dressed: for each field that is a dictionary, in their order, a message says the
/// texts that its column holds, each once and by first appearance. After these messages one that is
/// written of the batch that is made says the rows. `None` where the bodies of all have more bytes
/// than there is room for: it comes where the texts alone have them, or where the dictionary of one
/// column cannot be written. Otherwise it is for the caller to look how long the batch's own body
/// is.
///
/// # Errors
///
/// `AllocError` where memory is refused.
pub fn dress(
    alloc: Global,
    seed: HashSeed,
    schema: &Schema,
    batch: &Batch,
    room: usize,
) -> Result<Option<DressedBatch>, AllocError>
    requires rows { batch.now.rows ≤ most_values }
    requires room { room < 2 ^ 31 }
    requires numbered { AreNumbered 0 schema.now.fields }
    requires dressable { AreDressable schema.now.fields batch.now.columns }
    ensures dressed { IfOk result (λ found. IfSome found (IsDressedBatch schema.now batch.now)) }
    ensures full { IfOk result
        (λ found. IfNone found (room < dressed_length schema.now.fields batch.now.columns)) }
{
    values_are_of_their_type();
    columns_stand(batch.columns());
    let Some(coded) = code_batch(alloc, seed, schema, batch, room)? else {
        return Ok(None);
    };
    let CodedBatch {
        batch: own,
        dictionaries,
    } = coded;
    let Some(messages) = dictionary_messages(alloc, dictionaries.as_slice())? else {
        return Ok(None);
    };
    Ok(Some(DressedBatch {
        dictionaries: messages,
        batch: own,
    }))
}

// Looks at each column, which tells that its slots stand.
fn columns_stand(columns: &[Column])
    ensures { All IsColumn columns.now }
{
    for column in columns {
        let _len = column.len();
    }
}

// The message of a dictionary, which is no delta. `None` where its body would have 2 to the 31
// bytes or more.
fn dictionary_message(
    alloc: Global,
    dictionary: &ColumnDictionary,
) -> Result<Option<WrittenMessage>, AllocError>
    ensures message { IfOk result
        (λ found. IfSome found (λ made. IsMessageOf dictionary.now (written_seen made))) }
    ensures full { IfOk result (λ found. IfNone found (2 ^ 31 ≤ written_length dictionary.now)) }
{
    write_dictionary(alloc, dictionary.number, &dictionary.texts, false)
}

// The messages of dictionaries. `None` where one cannot be written.
fn dictionary_messages(
    alloc: Global,
    dictionaries: &[ColumnDictionary],
) -> Result<Option<Vec<WrittenMessage>>, AllocError>
    ensures messages { IfOk result (λ found. IfSome found
        (λ made. AllZip IsMessageOf dictionaries.now (map written_seen made.items))) }
    ensures full { IfOk result (λ found. IfNone found (2 ^ 31 ≤ all_written dictionaries.now)) }
{
    let mut made = Vec::with_capacity(alloc, dictionaries.len())?;
    for dictionary in dictionaries {
        let Some(message) = dictionary_message(alloc, dictionary)? else {
            return Ok(None);
        };
        made.push(message)?;
    }
    Ok(Some(made))
}
