//! Batches whose columns of dictionaries are coded.

ghost use Rattle.std.specs.Prelude.{◌≡◌, ◌≤◌, ◌<◌, ◌+◌, ◌^◌, ◌++◌, All, IfErr, IfNone, IfOk};
ghost use Rattle.std.specs.Prelude.{IfSome, OnOk, map};
ghost use Rattle.std.specs.Option.{option_to_list};
ghost use Rattle.scan_base.specs.Limits.{most_values};
ghost use Rattle.arrays.specs.Batch.{AreLong, rows_of};
ghost use Rattle.arrays.specs.Texts.{texts_values};
ghost use Rattle.dictionary_answers.specs.declared.coding.Stop.TheVariants.{OutOfRoom};
ghost use Rattle.dictionary_answers.specs.Answer.{AreAnswered, AreCodable, IsAnswered, IsCodable};
ghost use Rattle.dictionary_answers.specs.Answer.{coded_bytes, column_bytes, column_dictionary};
ghost use Rattle.dictionary_answers.specs.Answer.{dictionaries_of, dictionary_seen};

use crate::coding::Stop;
use crate::columns::code_packed;
use crate::index_columns::{column_over, column_validity};
use arrays::{Batch, Cells, Column, Texts};
use arrow_types::{DataType, Field, Schema};
use scan_base::HashSeed;
use std::alloc::{AllocError, Global};

/// The number of a column, counted from 0, and the texts over which it lies.
#[derive(Drop)]
pub struct ColumnDictionary {
    pub number: u64,
    pub texts: Texts,
}

/// A batch whose columns of dictionaries lie over their own texts, and these dictionaries, in the
/// order of the columns. Both share the texts.
#[derive(Drop)]
pub struct CodedBatch {
    pub batch: Batch,
    pub dictionaries: Vec<ColumnDictionary>,
}

/// The same rows, where each column whose field is a dictionary lies as indices of 32 bits over the
/// texts that it holds, each once and by first appearance, and each other column as it is. `None`
/// where those texts have more bytes than there is room for: it comes before a text is copied.
///
/// # Errors
///
/// `AllocError` where memory is refused.
pub fn code_batch(
    alloc: Global,
    seed: HashSeed,
    schema: &Schema,
    batch: &Batch,
    room: usize,
) -> Result<Option<CodedBatch>, AllocError>
    requires rows { batch.now.rows ≤ most_values }
    requires room { room < 2 ^ 31 }
    requires codable { AreCodable schema.now.fields batch.now.columns }
    ensures rows { IfOk result
        (λ made. IfSome made (λ made. rows_of made.batch ≡ rows_of batch.now)) }
    ensures columns { IfOk result (λ made. IfSome made (λ made.
        AreAnswered schema.now.fields batch.now.columns made.batch.columns)) }
    ensures dictionaries { IfOk result (λ made. IfSome made (λ made.
        map dictionary_seen made.dictionaries.items
        ≡ dictionaries_of 0 schema.now.fields batch.now.columns)) }
    ensures fits { IfOk result
        (λ made. IfSome made (λ _. coded_bytes schema.now.fields batch.now.columns ≤ room)) }
    ensures full { IfOk result
        (λ made. IfNone made (room < coded_bytes schema.now.fields batch.now.columns)) }
{
    let fields = schema.fields.as_slice();
    match code_columns(alloc, seed, fields, batch.columns(), room) {
        Ok((columns, dictionaries)) => {
            let batch = Batch::new(columns, batch.rows());
            Ok(Some(CodedBatch {
                batch,
                dictionaries,
            }))
        }
        Err(Stop::OutOfRoom) => Ok(None),
        Err(Stop::OutOfMemory) => Err(AllocError),
    }
}

// Each column as its field is answered, and the dictionaries over which those of a dictionary lie.
fn code_columns(
    alloc: Global,
    seed: HashSeed,
    fields: &[Field],
    columns: &[Column],
    room: usize,
) -> Result<(Vec<Column>, Vec<ColumnDictionary>), Stop>
    requires rows { All (λ column. column.len ≤ most_values) columns.now }
    requires room { room < 2 ^ 31 }
    requires codable { AreCodable fields.now columns.now }
    ensures columns { IfOk result (λ made. AreAnswered fields.now columns.now made.0.items) }
    ensures dictionaries { IfOk result
        (λ made. map dictionary_seen made.1.items ≡ dictionaries_of 0 fields.now columns.now) }
    ensures fits { IfOk result (λ _. coded_bytes fields.now columns.now ≤ room) }
    ensures full { IfErr result
        (λ stop. stop ≡ OutOfRoom → room < coded_bytes fields.now columns.now) }
{
    let mut made = Vec::with_capacity(alloc, columns.len())?;
    let mut dictionaries = Vec::new(alloc);
    let mut left = room;
    for place in 0..columns.len() {
        let data_type = fields[place].data_type;
        let (column, texts, rest) = answer_column(alloc, seed, data_type, &columns[place], left)?;
        made.push(column)?;
        add_dictionary(&mut dictionaries, place as u64, texts)?;
        left = rest;
    }
    Ok((made, dictionaries))
}

// Puts the dictionary of a column after the others, if it has one.
#[tactic(auto, using(crate::proofs::AnsweredSoFar::seen_more, crate::proofs::AnsweredSoFar::seen_none))]
fn add_dictionary(
    dictionaries: &mut Vec<ColumnDictionary>,
    number: u64,
    texts: Option<Texts>,
) -> Result<(), AllocError>
    ensures { OnOk result
        (map dictionary_seen dictionaries.new.items ≡ map dictionary_seen dictionaries.old.items
        ++ map (λ values. (number, values)) (map texts_values (option_to_list texts))) }
{
    let Some(texts) = texts else {
        return Ok(());
    };
    dictionaries.push(ColumnDictionary { number, texts })?;
    Ok(())
}

// A column as its type is answered, the dictionary over which it lies, if it lies over one, and how
// many bytes more texts may have after its own.
fn answer_column(
    alloc: Global,
    seed: HashSeed,
    data_type: DataType,
    column: &Column,
    room: usize,
) -> Result<(Column, Option<Texts>, usize), Stop>
    requires rows { column.now.len ≤ most_values }
    requires room { room < 2 ^ 31 }
    requires codable { IsCodable data_type column.now }
    ensures column { IfOk result (λ made. IsAnswered data_type column.now made.0) }
    ensures texts { IfOk result (λ made. map texts_values (option_to_list made.1)
        ≡ column_dictionary data_type column.now) }
    ensures left { IfOk result (λ made. column_bytes data_type column.now + made.2 ≡ room) }
    ensures full { IfErr result
        (λ stop. stop ≡ OutOfRoom → room < column_bytes data_type column.now) }
{
    match data_type {
        DataType::Dictionary(_) => {
            let (found, packed) = code_packed(alloc, seed, column, room)?;
            let validity = column_validity(alloc, column, &packed)?;
            let (made, texts) = column_over(alloc, validity, packed, found.texts())?;
            Ok((made, Some(texts), found.left()))
        }
        _ => Ok((column.slice(0, column.len())?, None, room)),
    }
}
