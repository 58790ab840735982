//! What answers a put: `arrow.flight.protocol.PutResult`, and in its metadata
//! `arrow.flight.protocol.sql.DoPutUpdateResult`.

ghost use Rattle.std.specs.Prelude.{◌≡◌, ◌++◌, OnOk, OnErr};
ghost use Rattle.scan_base.specs.Reading.{Gives};
ghost use Rattle.flight_proto.specs.PutResult.{update_of, update_bytes, rows_put_of};
ghost use Rattle.flight_proto.specs.PutResult.{rows_put_bytes};

use crate::message::Message;
use crate::message_parts::{Part, put_parts};
use crate::wrapped_bytes::{put_wrapped, read_wrapped};
use proto_wire::Field;
use scan_base::Fault;
use std::alloc::AllocError;

/// How many rows a DoPutUpdateResult says.
///
/// # Errors
///
/// `Fault::BadProto` where the message does not read.
pub fn read_update(bytes: &[u8]) -> Result<i64, Fault>
    ensures { Gives (λ rows. rows) result (update_of bytes.now) }
{
    let message = Message::read(bytes)?;
    Ok(message.varint(1).cast_signed())
}

/// Writes at the end the DoPutUpdateResult of so many rows.
///
/// # Errors
///
/// `AllocError` where memory is refused. Nothing has changed then.
pub fn put_update(out: &mut Vec<u8>, rows: i64) -> Result<(), AllocError>
    ensures ok { OnOk result (out.new.items ≡ out.old.items ++ update_bytes rows) }
    ensures err { OnErr result (out.new.items ≡ out.old.items) }
{
    put_parts(out, &[Part::Scalar(Field::varint(1, rows.cast_unsigned()))])
}

/// Writes at the end the PutResult that says how many rows were put. At 0 rows it has no bytes.
///
/// # Errors
///
/// `AllocError` where memory is refused. Nothing has changed then.
pub fn put_rows_put(out: &mut Vec<u8>, rows: i64) -> Result<(), AllocError>
    ensures ok { OnOk result (out.new.items ≡ out.old.items ++ rows_put_bytes rows) }
    ensures err { OnErr result (out.new.items ≡ out.old.items) }
{
    let mut update = Vec::new(*out.allocator());
    put_update(&mut update, rows)?;
    put_wrapped(out, &update)
}

/// How many rows were put, as a PutResult says it.
///
/// # Errors
///
/// `Fault::BadProto` where the PutResult, or the DoPutUpdateResult in it, does not read.
pub fn read_rows_put(bytes: &[u8]) -> Result<i64, Fault>
    ensures { Gives (λ rows. rows) result (rows_put_of bytes.now) }
{
    read_update(read_wrapped(bytes)?)
}
