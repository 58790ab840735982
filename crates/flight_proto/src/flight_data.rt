//! `arrow.flight.protocol.FlightData`.

ghost use Rattle.std.specs.Prelude.{◌≡◌, ◌++◌, length, take, option_map, option_copied, OnOk};
ghost use Rattle.std.specs.Prelude.{OnErr};
ghost use Rattle.scan_base.specs.Reading.{Gives, GivesUnlessMemory, RefusesFirst};
ghost use Rattle.flight_proto.specs.Lookup.{bytes_within};
ghost use Rattle.flight_proto.specs.FlightDescriptor.{descriptor_said};
ghost use Rattle.flight_proto.specs.FlightData.{stream_said, stream_descriptor_of};
ghost use Rattle.flight_proto.specs.FlightData.{data_of, data_said, borrowed_said, data_bytes};
ghost use Rattle.flight_proto.specs.FlightData.{data_head};

use crate::flight_descriptor::FlightDescriptor;
use crate::message::{Message, chunk_of};
use crate::message_parts::{Part, put_parts};
use bytes::Bytes;
use proto_wire::{Field, Fields, put_bytes_head};
use scan_base::Fault;
use std::alloc::AllocError;

/// The descriptor in the first message of a stream (field 1). A descriptor in a later message has
/// no meaning, so it is read apart from what all messages carry.
#[derive(Clone, Copy, Debug, PartialEq, Eq)]
pub struct StreamDescriptor<'a> {
    /// The descriptor, where there is one.
    pub descriptor: Option<FlightDescriptor<'a>>,
}

impl<'a> StreamDescriptor<'a> {
    /// The descriptor in the first message of a stream.
    ///
    /// # Errors
    ///
    /// `Fault::BadProto` where the message is no list of fields, or the descriptor does not read.
    pub fn read(bytes: &'a [u8]) -> Result<StreamDescriptor<'a>, Fault>
        ensures { Gives stream_said result (stream_descriptor_of bytes.now) }
    {
        let message = Message::read(bytes)?;
        if !message.has(1) {
            return Ok(StreamDescriptor { descriptor: None });
        }
        let parts = Message::read_parts(bytes, 1)?;
        let descriptor = FlightDescriptor::look_up(&parts)?;
        Ok(StreamDescriptor {
            descriptor: Some(descriptor),
        })
    }
}

/// What a message of a stream carries, borrowed.
#[derive(Clone, Copy, Debug)]
pub struct BorrowedData<'a> {
    /// Field 2: an Arrow IPC message, without its body.
    pub data_header: &'a [u8],
    /// Field 1000: the body of that message.
    pub data_body: &'a [u8],
}

impl<'a> BorrowedData<'a> {
    /// What a message of a stream carries. It takes no memory.
    ///
    /// # Errors
    ///
    /// `Fault::BadProto` where the message is no list of fields.
    pub fn read(bytes: &'a [u8]) -> Result<BorrowedData<'a>, Fault>
        ensures { Gives borrowed_said result (data_of bytes.now) }
    {
        let message = Message::read(bytes)?;
        Ok(BorrowedData {
            data_header: message.bytes(2),
            data_body: message.bytes(1000),
        })
    }
}

/// What a message of a stream carries: cuts of its bytes, which share them.
#[derive(Debug, Drop)]
pub struct FlightData {
    /// Field 2: an Arrow IPC message, without its body.
    pub data_header: Bytes,
    /// Field 1000: the body of that message.
    pub data_body: Bytes,
}

// The last bytes of this number, as a cut of the message. The whole message is read first.
fn cut(message: &Bytes, number: u32) -> Result<Bytes, Fault>
    ensures value { GivesUnlessMemory (λ cut. cut) result (bytes_within number message.now) }
    ensures first { RefusesFirst result (bytes_within number message.now) }
{
    let (mut start, mut end) = (0, 0);
    let mut fields = Fields::new(message.as_slice());
    while let Some(field) = fields.next()? {
        if let Some(chunk) = chunk_of(&field, number) {
            end = message.len() - fields.bytes_left();
            start = end - chunk.len();
        }
    }
    Ok(message.slice(start..end)?)
}

impl FlightData {
    /// What a message of a stream carries. Its bytes are shared and not copied.
    ///
    /// # Errors
    ///
    /// `Fault::BadProto` where the message is no list of fields, and `Fault::OutOfMemory` only
    /// where a cut of one that is a list is refused.
    pub fn read(message: &Bytes) -> Result<FlightData, Fault>
        ensures value { GivesUnlessMemory data_said result (data_of message.now) }
        ensures first { RefusesFirst result (data_of message.now) }
    {
        Ok(FlightData {
            data_header: cut(message, 2)?,
            data_body: cut(message, 1000)?,
        })
    }
}

/// Writes a message of a stream at the end. The first message of a stream has its descriptor.
///
/// # Errors
///
/// `AllocError` where memory is refused. Nothing has changed then.
pub fn put_flight_data(
    out: &mut Vec<u8>,
    descriptor: Option<&FlightDescriptor<'_>>,
    data_header: &[u8],
    data_body: &[u8],
) -> Result<(), AllocError>
    ensures ok { OnOk result (out.new.items ≡ out.old.items
        ++ data_bytes (option_map descriptor_said (option_copied descriptor.entry))
        (record { data_header = data_header.now; data_body = data_body.now })) }
    ensures err { OnErr result (out.new.items ≡ out.old.items) }
{
    let mut bytes = Vec::new(*out.allocator());
    if let Some(descriptor) = descriptor {
        descriptor.put(&mut bytes)?;
    }
    let embedded = descriptor.map(|_| bytes.as_slice());
    let data_header = Field::bytes(2, data_header);
    let data_body = Field::bytes(1000, data_body);
    put_parts(
        out,
        &[
            Part::Embedded(1, embedded),
            Part::Scalar(data_header),
            Part::Scalar(data_body),
        ],
    )
}

// Writes what comes before a body, and may leave a piece where memory runs out.
fn append_flight_data_head(
    out: &mut Vec<u8>,
    data_header: &[u8],
    body_length: u64,
) -> Result<(), AllocError>
    ensures ok { OnOk result
        (out.new.items ≡ out.old.items ++ data_head data_header.now body_length) }
    ensures err { take (length out.old.items) out.new.items ≡ out.old.items }
{
    put_parts(out, &[Part::Scalar(Field::bytes(2, data_header))])?;
    if body_length == 0 {
        return Ok(());
    }
    put_bytes_head(out, 1000, body_length)
}

/// Writes at the end a message of a stream without a descriptor, up to its body. The caller writes
/// a body of so many bytes after it, and so copies that once.
///
/// # Errors
///
/// `AllocError` where memory is refused. Nothing has changed then.
pub fn put_flight_data_head(
    out: &mut Vec<u8>,
    data_header: &[u8],
    body_length: u64,
) -> Result<(), AllocError>
    ensures ok { OnOk result
        (out.new.items ≡ out.old.items ++ data_head data_header.now body_length) }
    ensures err { OnErr result (out.new.items ≡ out.old.items) }
{
    let len = out.len();
    let written = append_flight_data_head(out, data_header, body_length);
    if written.is_err() {
        out.truncate(len);
    }
    written
}
