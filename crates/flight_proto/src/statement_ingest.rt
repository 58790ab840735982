//! `arrow.flight.protocol.sql.CommandStatementIngest`.

ghost use Rattle.std.specs.Prelude.{◌≡◌, ◌++◌, Ok, take, length, option_map, OnOk, OnErr};
ghost use Rattle.scan_base.specs.Reading.{Gives};
ghost use Rattle.flight_proto.specs.Message.{embedded_field, spelled};
ghost use Rattle.flight_proto.specs.Lookup.{embedded_within};
ghost use Rattle.flight_proto.specs.StatementIngest.{options_said, options_in, options_of};
ghost use Rattle.flight_proto.specs.StatementIngest.{options_bytes};
ghost use Rattle.flight_proto.specs.StatementIngest.{statement_said, statement_of, statement_bytes};

use crate::message::Message;
use crate::message_parts::{Part, put_parts};
use proto_wire::Field;
use scan_base::Fault;
use std::alloc::AllocError;

/// What to do where the table is absent, and where it is there. Numbers outside the standard's
/// lists are kept as they are.
#[derive(Clone, Copy, Debug, PartialEq, Eq)]
pub struct TableDefinitionOptions {
    /// Field 1: unspecified is 0, CREATE is 1, FAIL is 2.
    pub if_not_exist: u32,
    /// Field 2: unspecified is 0, FAIL is 1, APPEND is 2, REPLACE is 3.
    pub if_exists: u32,
}

impl TableDefinitionOptions {
    // The options of these fields.
    fn look_up(message: &Message<'_>) -> TableDefinitionOptions
        ensures { Ok (options_said result) ≡ options_in message.now }
    {
        TableDefinitionOptions {
            if_not_exist: message.enumerator(1),
            if_exists: message.enumerator(2),
        }
    }

    /// The options that these bytes are.
    ///
    /// # Errors
    ///
    /// `Fault::BadProto` where they do not read.
    pub fn read(bytes: &[u8]) -> Result<TableDefinitionOptions, Fault>
        ensures { Gives options_said result (options_of bytes.now) }
    {
        let message = Message::read(bytes)?;
        Ok(TableDefinitionOptions::look_up(&message))
    }

    // The options that are embedded in these bytes as field 1, where they are there.
    fn read_embedded(bytes: &[u8]) -> Result<Option<TableDefinitionOptions>, Fault>
        ensures { Gives (option_map options_said) result (embedded_within options_in 1 bytes.now) }
    {
        let message = Message::read(bytes)?;
        if !message.has(1) {
            return Ok(None);
        }
        let parts = Message::read_parts(bytes, 1)?;
        Ok(Some(TableDefinitionOptions::look_up(&parts)))
    }

    /// Writes the options at the end.
    ///
    /// # Errors
    ///
    /// `AllocError` where memory is refused. Nothing has changed then.
    pub fn put(&self, out: &mut Vec<u8>) -> Result<(), AllocError>
        ensures ok { OnOk result (out.new.items
            ≡ out.old.items ++ options_bytes (options_said self.now)) }
        ensures err { OnErr result (out.new.items ≡ out.old.items) }
    {
        let if_not_exist = Field::varint(1, u64::from(self.if_not_exist));
        let if_exists = Field::varint(2, u64::from(self.if_exists));
        put_parts(out, &[Part::Scalar(if_not_exist), Part::Scalar(if_exists)])
    }
}

/// The command to put the rows of a stream into a table. Its map `options` (field 1000) is not
/// read. An optional field that is absent is as one that is empty.
#[derive(Clone, Copy, Debug, PartialEq, Eq)]
pub struct CommandStatementIngest<'a> {
    /// Field 1.
    pub table_definition_options: Option<TableDefinitionOptions>,
    /// Field 2: the table's name.
    pub table: &'a str,
    /// Field 3: the name of a database schema.
    pub schema: &'a str,
    /// Field 4: the name of a catalog.
    pub catalog: &'a str,
    /// Field 5: the table is temporary.
    pub temporary: bool,
    /// Field 6.
    pub transaction_id: &'a [u8],
}

// Writes options as the field of a message, where there are any. An `Err` changes nothing.
fn put_options(out: &mut Vec<u8>, options: Option<TableDefinitionOptions>) -> Result<(), AllocError>
    ensures ok { OnOk result (out.new.items ≡ out.old.items
        ++ spelled (embedded_field 1 options_bytes (option_map options_said options))) }
    ensures err { OnErr result (out.new.items ≡ out.old.items) }
{
    let Some(options) = options else {
        return Ok(());
    };
    let mut bytes = Vec::new(*out.allocator());
    options.put(&mut bytes)?;
    put_parts(out, &[Part::Embedded(1, Some(&bytes))])
}

impl<'a> CommandStatementIngest<'a> {
    /// The command that these bytes are.
    ///
    /// # Errors
    ///
    /// `Fault::BadProto` where they do not read.
    pub fn read(bytes: &'a [u8]) -> Result<CommandStatementIngest<'a>, Fault>
        ensures { Gives statement_said result (statement_of bytes.now) }
    {
        let message = Message::read(bytes)?;
        Ok(CommandStatementIngest {
            table_definition_options: TableDefinitionOptions::read_embedded(bytes)?,
            table: message.text(2)?,
            schema: message.text(3)?,
            catalog: message.text(4)?,
            temporary: message.varint(5) != 0,
            transaction_id: message.bytes(6),
        })
    }

    // Writes the command at the end, and may leave a piece where memory runs out.
    fn append(&self, out: &mut Vec<u8>) -> Result<(), AllocError>
        ensures ok { OnOk result (out.new.items
            ≡ out.old.items ++ statement_bytes (statement_said self.now)) }
        ensures err { take (length out.old.items) out.new.items ≡ out.old.items }
    {
        put_options(out, self.table_definition_options)?;
        put_parts(
            out,
            &[
                Part::Scalar(Field::bytes(2, self.table.as_bytes())),
                Part::Scalar(Field::bytes(3, self.schema.as_bytes())),
                Part::Scalar(Field::bytes(4, self.catalog.as_bytes())),
                Part::Scalar(Field::varint(5, u64::from(self.temporary))),
                Part::Scalar(Field::bytes(6, self.transaction_id)),
            ],
        )
    }

    /// Writes the command at the end.
    ///
    /// # Errors
    ///
    /// `AllocError` where memory is refused. Nothing has changed then.
    pub fn put(&self, out: &mut Vec<u8>) -> Result<(), AllocError>
        ensures ok { OnOk result (out.new.items
            ≡ out.old.items ++ statement_bytes (statement_said self.now)) }
        ensures err { OnErr result (out.new.items ≡ out.old.items) }
    {
        let start = out.len();
        let written = self.append(out);
        if written.is_err() {
            out.truncate(start);
        }
        written
    }
}
