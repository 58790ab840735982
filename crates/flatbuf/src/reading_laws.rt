//! Laws: each reading finds what the FlatBuffers format says, and nothing else.

ghost use Rattle.flatbuf.specs.Readings.{FindsNumber, FindsBytes, FindsTarget, FindsRoot};
ghost use Rattle.flatbuf.specs.Readings.{FindsVtable, FindsField, FindsScalar, FindsTable};
ghost use Rattle.flatbuf.specs.Readings.{FindsVector, FindsElement, FindsItems, FindsStructs};
ghost use Rattle.flatbuf.specs.Readings.{FindsText};

/// Each reading gives the value that lies there by the FlatBuffers binary format, and
/// `Fault::BadFlatbuffer` exactly where no value does. This is a law: the call does nothing.
pub fn readings_find_what_the_format_says()
    ensures number { FindsNumber }
    ensures bytes { FindsBytes }
    ensures target { FindsTarget }
    ensures items { FindsItems }
    ensures root { FindsRoot }
    ensures vtable { FindsVtable }
    ensures field { FindsField }
    ensures scalar { FindsScalar }
    ensures table { FindsTable }
    ensures vector { FindsVector }
    ensures element { FindsElement }
    ensures structs { FindsStructs }
    ensures text { FindsText }
{}
