//! Laws. Each function here has an empty body: its contract is the law.

ghost use Rattle.arrow_types.specs.Answer.{PlainIsSchema, PlainHasNone, PlainStays};

/// The columns of a schema may be written without their dictionaries.
pub fn plain_schemas_are_schemas()
    ensures { PlainIsSchema }
{}

/// No column has a dictionary then.
#[tactic(auto, using(crate::proofs::Plain::plain_has_none))]
pub fn plain_schemas_have_none()
    ensures { PlainHasNone }
{}

/// Columns without dictionaries stay as they are.
#[tactic(auto, using(crate::proofs::Plain::plain_stays))]
pub fn plain_schemas_stay()
    ensures { PlainStays }
{}
