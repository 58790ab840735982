//! The columns of a result.

ghost use Rattle.std.specs.Prelude.{◌≡◌, IfOk, unwrap_or};
ghost use Rattle.arrow_types.specs.Answer.{answered_field};

use arrow_types::Field;
use scan_base::Text;
use std::alloc::AllocError;

// The column of a result that has this number and gives the values of a column, with the alias as
// its name where there is one.
pub(crate) fn answer_field(
    field: &Field,
    number: u64,
    alias: &Option<Text>,
) -> Result<Field, AllocError>
    ensures { IfOk result (λ answer. answer
        ≡ record (answered_field number field.now) { name = unwrap_or alias.now field.now.name }) }
{
    let Some(alias) = alias else {
        return field.answered(number);
    };
    Ok(Field {
        name: alias.clone()?,
        nullable: field.nullable,
        data_type: field.data_type.answered(number),
    })
}
