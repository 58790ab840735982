//! What was written is read back, and how long it is. Each function here has an empty body: its
//! contract is a law, of every block that a [`Builder`](crate::Builder) writes, wherever it stands
//! in a buffer.

ghost use Rattle.flatbuf.specs.WrittenTables.{TableReadsBack, VtableReadsBack, TableIsAligned};
ghost use Rattle.flatbuf.specs.WrittenTables.{ChildReadsBack, TextReadsBack, StructsReadBack};
ghost use Rattle.flatbuf.specs.WrittenTables.{TablesReadBack, BufferReadsBack};
ghost use Rattle.flatbuf.specs.Lengths.{TableIsWhole, TableIsShort, TextIsWhole, TextIsShort};
ghost use Rattle.flatbuf.specs.Lengths.{StructsAreWhole, StructsAreShort};
ghost use Rattle.flatbuf.specs.Lengths.{TablesAreWhole, TablesAreShort};

/// Every slot of a table reads as what it was given, and a slot past the last one as absent.
pub fn table_reads_back()
    ensures { TableReadsBack }
{}

/// The vtable stands right before its table, and says the sizes of both.
pub fn vtable_reads_back()
    ensures { VtableReadsBack }
{}

/// A table whose bytes stand at a multiple of 8 begins at one, and so does each of its fields.
pub fn table_is_aligned()
    ensures { TableIsAligned }
{}

/// A table that a slot was given is read where its bytes stand.
pub fn child_reads_back()
    ensures { ChildReadsBack }
{}

/// A text that a slot was given reads back, and is closed by a zero.
pub fn text_reads_back()
    ensures { TextReadsBack }
{}

/// Structs that a slot was given read back, and begin at a multiple of 8 where the table does.
pub fn structs_read_back()
    ensures { StructsReadBack }
{}

/// A vector of tables that a slot was given reads back: its count, and each table by its index.
pub fn tables_read_back()
    ensures { TablesReadBack }
{}

/// A finished buffer leads to its table, and has a multiple of 8 bytes.
pub fn buffer_reads_back()
    ensures { BufferReadsBack }
{}

/// A table of whole blocks is whole: it has a multiple of 8 bytes. It has at most 20, and 10 more
/// for each slot, next to those of the blocks that it leads to.
pub fn table_is_short()
    ensures whole { TableIsWhole }
    ensures short { TableIsShort }
{}

/// A text's block is whole, and has at most 16 bytes next to those of the text.
pub fn text_is_short()
    ensures whole { TextIsWhole }
    ensures short { TextIsShort }
{}

/// A block of structs is whole, and has at most 15 bytes next to those of the structs.
pub fn structs_are_short()
    ensures whole { StructsAreWhole }
    ensures short { StructsAreShort }
{}

/// A vector of whole tables is whole, and has at most 15 bytes, and 4 more for each table, next to
/// those of the tables.
pub fn tables_are_short()
    ensures whole { TablesAreWhole }
    ensures short { TablesAreShort }
{}
