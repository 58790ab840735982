//! The columns of a table.

ghost use Rattle.std.specs.Prelude.{◌≡◌, IfOk};
ghost use Rattle.arrow_types.specs.Answer.{answered_field, plain_field, plain_schema};
ghost use Rattle.arrow_types.specs.Schema.{IsSchema};

use crate::data_type::DataType;
use scan_base::{Items, Text};
use std::alloc::{AllocError, Global};

/// The most columns of a table, and of a query's result.
pub const MAX_COLUMNS: usize = 64;

/// The bytes of the name of a column, or of a table, are at least 1 and at most these.
pub const MAX_NAME_BYTES: usize = 64;

/// A column of a schema: its name, whether a cell may be null, and the type of its values.
#[derive(Debug, Drop)]
pub struct Field {
    pub name: Text,
    pub nullable: bool,
    pub data_type: DataType,
}

/// The columns of a table, in order.
#[derive(Debug, Drop)]
pub struct Schema {
    pub fields: Items<Field>,
}

impl Field {
    /// The same column once more. It fails with [`AllocError`] where memory is refused, and with no
    /// other error.
    pub fn copy(&self) -> Result<Field, AllocError>
        ensures { IfOk result (λ copy. copy ≡ self.now) }
    {
        Ok(Field {
            name: self.name.clone()?,
            nullable: self.nullable,
            data_type: self.data_type,
        })
    }

    /// The result's column of this number, counted from 0, that gives the values of this one: it
    /// keeps its name, and whether a cell may be null. It fails with [`AllocError`] where memory is
    /// refused, and with no other error.
    pub fn answered(&self, number: u64) -> Result<Field, AllocError>
        ensures { IfOk result (λ answer. answer ≡ answered_field number self.now) }
    {
        Ok(Field {
            name: self.name.clone()?,
            nullable: self.nullable,
            data_type: self.data_type.answered(number),
        })
    }

    /// The same column, and a dictionary of texts as texts. It fails with [`AllocError`] where
    /// memory is refused, and with no other error.
    pub fn plain(&self) -> Result<Field, AllocError>
        ensures { IfOk result (λ plain. plain ≡ plain_field self.now) }
    {
        Ok(Field {
            name: self.name.clone()?,
            nullable: self.nullable,
            data_type: self.data_type.copied(),
        })
    }
}

impl Schema {
    /// The same columns once more. It fails with [`AllocError`] where memory is refused, and with
    /// no other error.
    pub fn copy(&self, alloc: Global) -> Result<Schema, AllocError>
        ensures { IfOk result (λ copy. copy ≡ self.now) }
    {
        let mut fields = Items::new(alloc);
        for field in self.fields.as_slice() {
            fields.push(field.copy()?)?;
        }
        Ok(Schema { fields })
    }

    /// The same columns, and each dictionary of texts as texts. It fails with [`AllocError`] where
    /// memory is refused, and with no other error.
    pub fn plain(&self, alloc: Global) -> Result<Schema, AllocError>
        ensures plain { IfOk result (λ plain. plain ≡ plain_schema self.now) }
        ensures valid { IsSchema self.now → IfOk result IsSchema }
    {
        let mut fields = Items::new(alloc);
        for field in self.fields.as_slice() {
            fields.push(field.plain()?)?;
        }
        Ok(Schema { fields })
    }
}
