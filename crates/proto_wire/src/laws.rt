//! Laws of the definitions that the contracts cite. The functions do nothing: their contracts are
//! the laws.

ghost use Rattle.proto_wire.specs.Laws.{ReadingKeepsStandard, FrontKeepsStandard};
ghost use Rattle.proto_wire.specs.Laws.{AtMostOneFront, AtMostOneList};
ghost use Rattle.proto_wire.specs.Laws.{VarintReadsBack, SpellingKeepsStandard};
ghost use Rattle.proto_wire.specs.Laws.{FieldsAreGained, ChunksFollowHeads};

/// Bytes read as a list of fields exactly where they are that list in the standard's words.
pub fn reading_keeps_standard()
    ensures { ReadingKeepsStandard }
{}

/// A field reads at the front exactly where it stands there in the standard's words.
pub fn front_keeps_standard()
    ensures { FrontKeepsStandard }
{}

/// At most one field stands in front of bytes.
pub fn at_most_one_front()
    ensures { AtMostOneFront }
{}

/// Bytes are at most one list of fields.
pub fn at_most_one_list()
    ensures { AtMostOneList }
{}

/// A varint that is written reads back, whatever follows it.
pub fn varint_reads_back()
    ensures { VarintReadsBack }
{}

/// What is written for fields are those fields in the standard's words.
pub fn spelling_keeps_standard()
    ensures { SpellingKeepsStandard }
{}

/// Bytes that are fields are, with a written field after them, the same fields and one more.
pub fn fields_are_gained()
    ensures { FieldsAreGained }
{}

/// A field of bytes is its head, and then the bytes.
pub fn chunks_follow_heads()
    ensures { ChunksFollowHeads }
{}
