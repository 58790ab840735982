//! The header of a message: its kind, and where its tables are.

ghost use Rattle.std.specs.Prelude.{◌≡◌};
ghost use Rattle.scan_base.specs.Reading.{Gives};
ghost use Rattle.arrow_schema.specs.Header.{message_of, header_kind, header_of};
ghost use Rattle.arrow_schema.specs.Header.{body_length_of};
ghost use Rattle.arrow_schema.specs.Fields.{table_wanted};
ghost use Rattle.arrow_schema.specs.MessageView.{message_seen};
ghost use Rattle.arrow_schema.specs.Message.{kind_number};

use flatbuf::{Buf, Table, Width};
use scan_base::Fault;

/// What a message's header is.
#[derive(Clone, Copy, Debug, PartialEq, Eq)]
pub enum HeaderKind {
    Schema,
    DictionaryBatch,
    RecordBatch,
}

impl HeaderKind {
    /// The number that stands for this kind in a message.
    pub(crate) fn number(self) -> u64
        ensures { result ≡ kind_number self }
    {
        match self {
            HeaderKind::Schema => 1,
            HeaderKind::DictionaryBatch => 2,
            HeaderKind::RecordBatch => 3,
        }
    }
}

/// A message: its header's kind, and its own table.
#[derive(Drop)]
pub struct Message<'a> {
    pub kind: HeaderKind,
    pub table: Table<'a>,
}

/// The message of a buffer, as Arrow's `Message.fbs` says. It takes no memory.
///
/// # Errors
///
/// - F6 (`Fault::BadFlatbuffer`) where something that is read lies outside the buffer.
/// - F7 (`Fault::UnsupportedArrow`) for another metadata version than V5, and for another kind of
///   header.
#[tactic(auto, unfolding(crate::specs::Header::message_of))]
pub fn read_message(bytes: &[u8]) -> Result<Message<'_>, Fault>
    ensures { Gives message_seen result (message_of bytes.now) }
{
    let message = Buf::root(bytes)?;
    if message.scalar(0, Width::Two, 0)? != 4 {
        return Err(Fault::UnsupportedArrow);
    }
    let kind = kind_of(message.scalar(1, Width::One, 0)?)?;
    Ok(Message {
        kind,
        table: message,
    })
}

impl<'a> Message<'a> {
    /// The header's own table.
    ///
    /// # Errors
    ///
    /// F6 (`Fault::BadFlatbuffer`) where there is none, or something that is read lies outside the
    /// buffer.
    pub fn header(&self) -> Result<Table<'a>, Fault>
        ensures { Gives (λ table. table) result (header_of (message_seen self.now)) }
    {
        table_wanted(&self.table, 2)
    }

    /// How many bytes of body the message claims, 0 where it does not say. A negative number is
    /// given as its two's complement, which is at least 2 to the 63.
    ///
    /// # Errors
    ///
    /// F6 (`Fault::BadFlatbuffer`) where something that is read lies outside the buffer.
    pub fn body_length(&self) -> Result<u64, Fault>
        ensures { Gives (λ length. length) result (body_length_of (message_seen self.now)) }
    {
        self.table.scalar(3, Width::Eight, 0)
    }
}

/// The table of a slot, which has to be there.
#[tactic(auto, unfolding(crate::specs::Fields::table_wanted))]
pub(crate) fn table_wanted<'a>(table: &Table<'a>, slot: u16) -> Result<Table<'a>, Fault>
    ensures { Gives (λ found. found) result (table_wanted table.now slot) }
{
    table.table(slot)?.ok_or(Fault::BadFlatbuffer)
}

fn kind_of(kind: u64) -> Result<HeaderKind, Fault>
    ensures { Gives (λ kind. kind) result (header_kind kind) }
{
    match kind {
        1 => Ok(HeaderKind::Schema),
        2 => Ok(HeaderKind::DictionaryBatch),
        3 => Ok(HeaderKind::RecordBatch),
        _ => Err(Fault::UnsupportedArrow),
    }
}
