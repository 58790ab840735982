//! The list of tables.

ghost use Rattle.std.specs.Prelude.{◌≡◌, ◌≤◌, ◌∷◌, ◌++◌, [], List, false, IfOk, OnOk};
ghost use Rattle.std.specs.List.{list_any};
ghost use Rattle.scan_base.specs.Limits.{most_tables};
ghost use Rattle.arrow_types.specs.Schema.{IsSchema};
ghost use Rattle.arrays.specs.Batch.{rows_of};
ghost use Rattle.arrays.specs.TypedLayouts.{AreOfTypes};
ghost use Rattle.table_versions.specs.StoredTables.{tables_of};
ghost use Rattle.table_versions.specs.Table.{Name, is_long_text};
ghost use Rattle.flight_info.specs.inside.ListedTables.{text_values, HoldTexts, HasValues};
ghost use Rattle.flight_info.specs.inside.ListedTables.{nulls_listed};
ghost use Rattle.flight_info.specs.inside.ListedTables.{names_listed, types_listed};
ghost use Rattle.flight_info.specs.Tables.{text_column, tables_schema, tables_listed};

use arrays::{Batch, Column, Slots, Texts};
use arrow_types::{DataType, Field, Schema};
use bytes::Bytes;
use scan_base::{Items, Text};
use std::alloc::{AllocError, Global};
use table_versions::CatalogVersion;

// A column of texts.
fn text_column(alloc: Global, name: &str, nullable: bool) -> Result<Field, AllocError>
    ensures { IfOk result (λ field. field ≡ text_column name.now nullable) }
{
    Ok(Field {
        name: Text::new(alloc, name)?,
        nullable,
        data_type: DataType::Utf8,
    })
}

/// The columns of the list of tables.
pub fn tables_schema(alloc: Global) -> Result<Schema, AllocError>
    ensures schema { IfOk result (λ schema. schema ≡ tables_schema) }
    ensures valid { IfOk result IsSchema }
{
    let mut fields = Items::new(alloc);
    fields.push(text_column(alloc, "catalog_name", true)?)?;
    fields.push(text_column(alloc, "db_schema_name", true)?)?;
    fields.push(text_column(alloc, "table_name", false)?)?;
    fields.push(text_column(alloc, "table_type", false)?)?;
    Ok(Schema { fields })
}

// The most bytes of a column's texts: its offsets are numbers of 32 bits with a sign.
const MOST_BYTES: usize = 0x7fff_ffff;

// Texts that are put one after another: an offset before each and after the last, and their bytes.
#[derive(Drop)]
struct TextBuilder {
    offsets: Vec<u8>,
    bytes: Vec<u8>,
}

impl TextBuilder {
    // No texts.
    fn new(alloc: Global) -> Result<TextBuilder, AllocError>
        ensures { IfOk result (λ builder. HoldTexts builder.offsets.items builder.bytes.items []) }
    {
        let mut offsets = Vec::new(alloc);
        offsets.extend_from_slice(&0u32.to_le_bytes())?;
        Ok(TextBuilder {
            offsets,
            bytes: Vec::new(alloc),
        })
    }

    // Puts a text after the others. `AllocError` also where no offset could name its end.
    fn push(&mut self, text: &str) -> Result<(), AllocError>
        ensures { (texts : List Name) →
            HoldTexts self.old.offsets.items self.old.bytes.items texts → OnOk result
            (HoldTexts self.new.offsets.items self.new.bytes.items (texts ++ text.now ∷ [])) }
    {
        self.bytes.extend_from_slice(text.as_bytes())?;
        let end = self.bytes.len();
        if end > MOST_BYTES {
            return Err(AllocError);
        }
        self.offsets.extend_from_slice(&(end as u32).to_le_bytes())?;
        Ok(())
    }

    // The column of the texts.
    fn into_column(self) -> Result<Column, AllocError>
        requires { (texts : List Name) × HoldTexts self.offsets.items self.bytes.items texts }
        ensures { (texts : List Name) → HoldTexts self.offsets.items self.bytes.items texts →
            IfOk result (HasValues (text_values texts)) }
    {
        let len = self.offsets.len() / 4 - 1;
        let offsets = Bytes::from_vec(self.offsets)?;
        let bytes = Bytes::from_vec(self.bytes)?;
        match Texts::new(None, offsets, bytes, len) {
            Ok(texts) => Ok(Column::new(Slots::texts(texts))),
            Err(_) => unreachable!(),
        }
    }
}

// A column of a null for each table. Its zeros are the bits of slots none of which is valid, and
// offsets that cut no byte.
fn null_column(alloc: Global, catalog: &CatalogVersion) -> Result<Column, AllocError>
    ensures { IfOk result (HasValues (nulls_listed catalog.now)) }
{
    let len = catalog.len();
    let zeros = Bytes::from_vec(vec![in alloc; 0u8; 4 * (len + 1)]?)?;
    match Texts::new(Some(zeros.clone()?), zeros, Bytes::new(), len) {
        Ok(nulls) => Ok(Column::new(Slots::texts(nulls))),
        Err(_) => unreachable!(),
    }
}

// A column of the names of tables.
fn name_column(alloc: Global, catalog: &CatalogVersion) -> Result<Column, AllocError>
    ensures { IfOk result (HasValues (text_values (names_listed catalog.now))) }
{
    let mut names = TextBuilder::new(alloc)?;
    for place in 0..catalog.len() {
        names.push(catalog.entry(place).0.as_str())?;
    }
    names.into_column()
}

// A column that says of each table that it is one.
fn type_column(alloc: Global, catalog: &CatalogVersion) -> Result<Column, AllocError>
    ensures { IfOk result (HasValues (text_values (types_listed catalog.now))) }
{
    let mut types = TextBuilder::new(alloc)?;
    for _place in 0..catalog.len() {
        types.push("TABLE")?;
    }
    types.into_column()
}

/// The rows of the list of tables: one for each table, in byte order of the names, and at most 256.
pub fn tables_batch(alloc: Global, catalog: &CatalogVersion) -> Result<Batch, AllocError>
    ensures rows { IfOk result
        (λ batch. rows_of batch ≡ (tables_listed (tables_of catalog.now)).rows) }
    ensures typed { IfOk result (λ batch. AreOfTypes tables_schema.fields batch.columns) }
    ensures few { IfOk result (λ batch. batch.rows ≤ most_tables) }
    ensures short { IfOk result
        (λ batch. list_any (list_any is_long_text) (rows_of batch) ≡ false) }
{
    let rows = catalog.len();
    let catalogs = null_column(alloc, catalog)?;
    let schemas = null_column(alloc, catalog)?;
    let names = name_column(alloc, catalog)?;
    let types = type_column(alloc, catalog)?;
    let columns = vec![in alloc; catalogs, schemas, names, types]?;
    Ok(Batch::new(columns, rows))
}
