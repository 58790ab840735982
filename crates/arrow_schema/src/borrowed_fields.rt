//! Columns as they stand in a buffer.

ghost use Rattle.std.specs.Prelude.{◌≡◌, IfOk};

use arrow_types::{DataType, Field};
use scan_base::{Items, Text};
use std::alloc::{AllocError, Global};
use std::marker::Model;

/// A column whose name still lies in the buffer. A contract sees the column.
#[derive(Drop)]
pub(crate) struct BorrowedField<'a> {
    pub(crate) name: &'a str,
    pub(crate) nullable: bool,
    pub(crate) data_type: DataType,
}

impl<'a> Model for BorrowedField<'a> {
    ghost use Rattle.arrow_types.specs.declared.schema.Field.{Field};

    ghost Value = { Field };

    ghost view = { λ f.
        record { name = f.name.now; nullable = f.nullable; data_type = f.data_type } };
}

// What an unused place of an `ArrayVec` holds.
impl Default for BorrowedField<'_> {
    ghost use Rattle.std.specs.Prelude.{◌≡◌, [], false};
    ghost use Rattle.arrow_types.specs.declared.data_type.DataType.TheVariants as kinds;

    ghost is_default = { λ blank. blank
        ≡ record { name = []; nullable = false; data_type = kinds.Bool } };

    fn default() -> Self {
        BorrowedField {
            name: "",
            nullable: false,
            data_type: DataType::Bool,
        }
    }
}

impl<'a> BorrowedField<'a> {
    pub(crate) fn new(name: &'a str, nullable: bool, data_type: DataType) -> BorrowedField<'a>
        ensures { result ≡ record { name = name.now; nullable = nullable; data_type = data_type } }
    {
        BorrowedField {
            name,
            nullable,
            data_type,
        }
    }

    pub(crate) fn data_type(&self) -> DataType
        ensures { result ≡ self.now.data_type }
    {
        self.data_type
    }

    fn owned(&self, alloc: Global) -> Result<Field, AllocError>
        ensures { IfOk result (λ field. field ≡ self.now) }
    {
        Ok(Field {
            name: Text::new(alloc, self.name)?,
            nullable: self.nullable,
            data_type: self.data_type,
        })
    }
}

/// The same columns with their names copied.
pub(crate) fn owned(alloc: Global, fields: &[BorrowedField<'_>]) -> Result<Items<Field>, AllocError>
    ensures { IfOk result (λ copy. copy ≡ fields.now) }
{
    let mut copy = Items::new(alloc);
    for field in fields {
        copy.push(field.owned(alloc)?)?;
    }
    Ok(copy)
}
