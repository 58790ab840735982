//! How the columns of two schemas compare.

ghost use Rattle.std.specs.Prelude.{◌≡◌, length};
ghost use Rattle.std.specs.List.{list_any};
ghost use Rattle.scan_base.specs.Lists.{repeats};
ghost use Rattle.table_versions.specs.Table.{same_type, same_field, same_fields, same_name};

use arrow_types::{DataType, Field};

// Whether two columns have values of one type. A dictionary's id and index type are not compared.
fn same_type(old: DataType, new: DataType) -> bool
    ensures { result ≡ same_type old new }
{
    match (old, new) {
        (DataType::Number(old), DataType::Number(new)) => old.is_same(new),
        (DataType::Utf8, DataType::Utf8) => true,
        (DataType::Bool, DataType::Bool) => true,
        (DataType::Dictionary(_), DataType::Dictionary(_)) => true,
        (_, _) => false,
    }
}

fn same_field(old: &Field, new: &Field) -> bool
    ensures { result ≡ same_field old.now new.now }
{
    old.name == new.name && same_type(old.data_type, new.data_type) && old.nullable == new.nullable
}

/// Whether two schemas have the same columns in order: their names, types and nullable flags. A
/// dictionary's id and index type are not compared. It takes no memory.
pub fn same_fields(old: &[Field], new: &[Field]) -> bool
    ensures { result ≡ same_fields old.now new.now }
{
    match old {
        [] => new.is_empty(),
        [old, olds @ ..] => match new {
            [] => false,
            [new, news @ ..] => same_field(old, new) && same_fields(olds, news),
        },
    }
}

// Whether two columns have one name.
pub(crate) fn has_repeat(fields: &[Field]) -> bool
    ensures { result ≡ repeats same_name fields.now }
{
    match fields {
        [] => false,
        [field, others @ ..] => is_among(field, others) || has_repeat(others),
    }
}

// Whether one of the others has the column's name.
fn is_among(field: &Field, others: &[Field]) -> bool
    ensures { result ≡ list_any (same_name field.now) others.now }
{
    others.iter().any(|other| field.name == other.name)
}
