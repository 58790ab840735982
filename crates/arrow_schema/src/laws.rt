//! Laws. Each function here has an empty body: its contract is the law.

ghost use Rattle.arrow_schema.specs.Message.{MessagesReadBack};
ghost use Rattle.arrow_schema.specs.WrittenHeader.{SchemasReadBack};
ghost use Rattle.arrow_schema.specs.Says.{ReadIsSaid, ReadIsSchema};

/// What is read of a written message is its kind, its header and the length of its body, wherever
/// the header's block leads.
#[tactic(auto, using(crate::proofs::Messages::messages_read))]
pub fn messages_read_back()
    ensures { MessagesReadBack }
{}

/// What is read of a written schema is that schema, whatever its types are.
#[tactic(auto, using(crate::proofs::Again::schemas_read))]
pub fn schemas_read_back()
    ensures { SchemasReadBack }
{}

/// What is read of a buffer is just what it says, in the words of Arrow's `Message.fbs` and
/// `Schema.fbs`.
pub fn read_schemas_are_said()
    ensures { ReadIsSaid }
{}

/// A schema that was read may be written, whatever its types are.
pub fn read_schemas_are_schemas()
    ensures { ReadIsSchema }
{}
