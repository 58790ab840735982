//! The bytes that a reader gave or a writer took, as contracts see them.

ghost use Rattle.std.specs.Prelude.{◌≡◌, ◌++◌, List, [], Some, ℕ};
ghost use Rattle.std.specs.Borrow.{ftrue};
ghost use Rattle.std.specs.Io.{ReadsAtMost, WritesAtMost};
ghost use Rattle.std.specs.Io.KnownBytes.{WriteAppends};
ghost use Rattle.grpc_frame.specs.Ends.{ReadAdvances, tape_of};

use std::io;
use std::io::{Read, Write};
use std::marker::Model;

/// Bytes in order. Contracts alone see them: they take no memory and no time. Only `read_noted` and
/// `write_noted` add any. No memory holds them, so only clauses fix them, and `new` and `note` are
/// proved by hand.
#[derive(Drop)]
pub struct Transcript {
    pub ghost bytes: { List ℕ },
}

impl Model for Transcript {
    ghost also_owns = { λ _. ftrue };
}

// It owns nothing.
unsafe impl Send for Transcript {}

impl Transcript {
    // No byte.
    pub(crate) fn new() -> Transcript
        ensures { result.bytes ≡ [] }
    {
        Transcript {}
    }

    // These bytes more.
    #[inline(always)]
    fn note(&mut self, _bytes: &[u8])
        ensures { self.new.bytes ≡ self.old.bytes ++ _bytes.now }
    {}
}

// One read. The bytes that the reader gave are noted.
pub(crate) fn read_noted<R: Read>(
    reader: &mut R,
    given: &mut Transcript,
    piece: &mut [u8],
) -> io::Result<usize>
    ensures bound { ReadsAtMost result piece.new }
    ensures bytes { ReadAdvances result
        (tape_of given.old.bytes (R.remaining reader.old))
        (tape_of given.new.bytes (R.remaining reader.new)) piece.new }
{
    let count = reader.read(piece)?;
    given.note(&piece[..count]);
    Ok(count)
}

// One write. The bytes that the writer took are noted.
pub(crate) fn write_noted<W: Write>(
    writer: &mut W,
    taken: &mut Transcript,
    piece: &[u8],
) -> io::Result<usize>
    ensures bound { WritesAtMost result piece.now }
    ensures held { WriteAppends (W.contents writer.old) (W.contents writer.new) result piece.now }
    ensures noted { WriteAppends (Some taken.old.bytes) (Some taken.new.bytes) result piece.now }
{
    let count = writer.write(piece)?;
    taken.note(&piece[..count]);
    Ok(count)
}
