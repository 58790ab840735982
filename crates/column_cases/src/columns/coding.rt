//! Columns of texts, over dictionaries of their own texts.

ghost use Rattle.std.specs.Prelude.{◌≡◌, ◌≤◌, [], ◌∷◌, All, IfOk, map};
ghost use Rattle.scan_base.specs.Limits.{most_values};
ghost use Rattle.scan_base.specs.Value.{IsTextOrNull};
ghost use Rattle.arrow_types.specs.declared.data_type.DataType.TheVariants.{
  Dictionary as DictionaryColumn,
};
ghost use Rattle.arrow_types.specs.declared.data_type.IntegerType.TheVariants.{Int32 as Four};
ghost use Rattle.arrays.specs.Column.{values_of};

use anyhow::{Result, bail};
use arrays::laws::values_are_of_their_type;
use arrays::{Batch, Cells, Column, Layout, Slots};
use arrow_types::{DataType, DictionaryEncoding, Field, IntegerType, Schema};
use dictionary_answers::code_batch;
use scan_base::{HashSeed, Items, Text};
use std::alloc::{AllocError, Global};

// The texts of a row have fewer bytes.
const ROOM: usize = 1_048_576;

// Columns of so many slots are coded.
const MOST_VALUES: usize = 16_777_216;

/// A column of texts as it is coded in a batch, and the texts over which it lies.
pub fn codings(alloc: Global, seed: HashSeed, column: &Column) -> Result<Vec<Column>> {
    let rows = column.len();
    values_are_of_their_type();
    match column.layout() {
        Layout::Texts(_) | Layout::Indices(_) if rows <= MOST_VALUES => {
            coded_batch(alloc, seed, column)
        }
        _ => bail!("no column of texts"),
    }
}

// The only column of a batch, coded, and then its texts.
fn coded_batch(alloc: Global, seed: HashSeed, column: &Column) -> Result<Vec<Column>>
    requires few { column.now.len ≤ most_values }
    requires texts { All IsTextOrNull (values_of column.now) }
{
    let own = column.slice(0, column.len())?;
    let rows = own.len();
    let schema = one_dictionary(alloc)?;
    let batch = Batch::new(vec![in alloc; own]?, rows);
    let Some(coded) = code_batch(alloc, seed, &schema, &batch, ROOM)? else {
        bail!("no room for the texts");
    };
    let mut made = Vec::new(alloc);
    for column in coded.batch.columns() {
        made.push(column.slice(0, column.len())?)?;
    }
    for dictionary in coded.dictionaries.as_slice() {
        made.push(Column::new(Slots::texts(dictionary.texts.share()?)))?;
    }
    Ok(made)
}

// A schema of one dictionary.
fn one_dictionary(alloc: Global) -> Result<Schema, AllocError>
    ensures { IfOk result (λ schema. map (λ field. field.data_type) schema.fields
        ≡ DictionaryColumn (record { id = 0; index = Four }) ∷ []) }
{
    let encoding = DictionaryEncoding {
        id: 0,
        index: IntegerType::Int32,
    };
    let field = Field {
        name: Text::from(format!(in alloc; "s")?),
        nullable: true,
        data_type: DataType::Dictionary(encoding),
    };
    let mut fields = Items::new(alloc);
    fields.push(field)?;
    Ok(Schema { fields })
}
