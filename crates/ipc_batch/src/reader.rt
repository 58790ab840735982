//! Reading messages one after the other.

ghost use Rattle.std.specs.Prelude.{◌≡◌, ◌≢◌, [], Some, None, Ok, Err, length, option_map};
ghost use Rattle.std.specs.Prelude.{IfOk, IfErr, IfSome, OnOk, OnErr};
ghost use Rattle.std.specs.List.{list_any};
ghost use Rattle.scan_base.specs.declared.fault.Fault.TheVariants.{OutOfMemory, BadBatch};
ghost use Rattle.scan_base.specs.Reading.{Gives, GivesUnlessMemory, RefusesFirst, demand};
ghost use Rattle.arrow_types.specs.Schema.{IsSchema};
ghost use Rattle.arrow_schema.specs.MessageView.{message_seen};
ghost use Rattle.ipc_batch.specs.SaidRows.{schema_sent, first_schema, batch_parts, batch_sent};
ghost use Rattle.ipc_batch.specs.SaidRows.{has_id};
ghost use Rattle.ipc_batch.specs.SaidRows.{leads_to, dictionary_sent};
ghost use Rattle.ipc_batch.specs.SaidRows.{known_after, next_news, first_glance, batch_glance};
ghost use Rattle.ipc_batch.specs.SaidRows.{dictionary_glance, next_glance, glance_of};
ghost use Rattle.ipc_batch.specs.SaidRows.{Answers, Tells, HasColumns};
ghost use Rattle.ipc_batch.specs.inside.PartsView.{parts_seen, dictionary_message_seen};

use crate::columns::{ColumnSource, check_counts, check_text_counts, read_columns, read_texts};
use crate::dictionaries::Dictionaries;
use crate::parts::{DictionaryMessage, Parts, check_body, read_dictionary, read_parts};
use arrays::{Batch, Dictionary};
use arrow_schema::{HeaderKind, Message, read_message};
use arrow_types::{DataType, Field, Schema};
use bytes::Bytes;
use scan_base::Fault;
use std::alloc::Global;
use std::marker::Model;
use std::sync::Arc;

// The schema, and the dictionaries as they now are.
#[derive(Drop)]
struct Stream {
    schema: Schema,
    dictionaries: Dictionaries,
}

impl Model for Stream {
    ghost use Rattle.arrow_types.specs.Schema.{IsSchema};
    ghost use Rattle.ipc_batch.specs.State.{Known};

    ghost Value = { Known };

    ghost view = { λ s. record { schema = s.schema; dictionaries = s.dictionaries } };

    ghost invariant = { λ s. IsSchema s.schema };
}

/// Reads messages one after the other. A contract sees what the messages so far leave after: the
/// schema, once it came, and the values of dictionaries.
#[derive(Drop)]
pub struct Reader {
    known: Option<Stream>,
}

impl Model for Reader {
    ghost use Rattle.ipc_batch.specs.State.{State};

    ghost Value = { State };

    ghost view = { λ r. r.known };
}

impl Reader {
    /// A reader to which no message came. It takes no memory.
    pub fn new() -> Reader
        ensures { result ≡ None }
    {
        Reader { known: None }
    }

    /// The schema that the messages say, once it came.
    pub fn schema(&self) -> Option<&Schema>
        ensures value { option_map (λ schema. schema.now) result
            ≡ option_map (λ known. known.schema) self.now }
        ensures valid { IfSome result (λ schema. IsSchema schema.now) }
    {
        match &self.known {
            None => None,
            Some(stream) => Some(&stream.schema),
        }
    }

    /// The schema that the messages said, once it came, without the reader.
    pub fn into_schema(self) -> Option<Schema>
        ensures value { result ≡ option_map (λ known. known.schema) self }
        ensures valid { IfSome result IsSchema }
    {
        match self.known {
            None => None,
            Some(stream) => Some(stream.schema),
        }
    }

    /// Reads the next message: a batch, or `None` where it is the schema or a dictionary. The batch
    /// has a column for each field, whose values are cuts of the body, and each keeps the
    /// dictionary as it then was. It takes memory for columns, and for the parts of dictionaries,
    /// and not for values.
    ///
    /// # Errors
    ///
    /// After each the reader is as before. Where several causes stand in one message, the one that
    /// is met first in reading is answered: the header and its tables, the body that it claims, the
    /// id of a dictionary, the counts of nodes and buffers, and then column by column. What is
    /// refused of all that before the columns, and of the length of a node or the place of a
    /// buffer, is refused for that, and never by want of memory.
    ///
    /// - F6 (`Fault::BadFlatbuffer`) where something that is read lies outside the header, and
    ///   where an offset that has to be there is absent.
    /// - F7 (`Fault::UnsupportedArrow`) for another metadata version than V5, another kind of
    ///   header, a schema of other types than are built, and compressed bodies.
    /// - F8 (`Fault::BadBatch`) where the first message is no schema, for a second schema, for a
    ///   dictionary whose id no field has, and for a batch or dictionary whose counts, lengths or
    ///   places do not agree with its schema or lie outside the body, whose texts are not cut in
    ///   order or are not UTF-8, or whose indices lie outside their dictionary. A negative number
    ///   lies outside every body.
    /// - F12 (`Fault::LimitReached`) for a schema of no column or too many, a name that is absent,
    ///   empty or too long, and a dictionary of more than 16,777,216 values.
    /// - F21 (`Fault::OutOfMemory`) where memory is refused.
    pub fn message(
        &mut self,
        alloc: Global,
        header: Bytes,
        body: Bytes,
    ) -> Result<Option<Batch>, Fault>
        ensures exact { Tells result self.old (record { header = header; body = body }) self.new }
        ensures columns { IfOk result (λ batch. HasColumns batch self.new) }
        ensures first { RefusesFirst result
            (glance_of self.old (record { header = header; body = body })) }
    {
        self.read(alloc, &header, &body)
    }

    /// What is refused of the next message before anything grows or is cut: the header, the body
    /// that it claims, a dictionary's id, the counts and lengths of nodes, and the counts and
    /// places of buffers. No want of memory can hide it.
    ///
    /// # Errors
    ///
    /// Those faults of [`Reader::message`] (F6, F7, F8, F12), and never F21.
    #[tactic(auto, unfolding(crate::specs::SaidRows::glance_of))]
    pub fn glance(&self, alloc: Global, header: &[u8], body: &[u8]) -> Result<(), Fault>
        ensures { Gives (λ done. done) result
            (glance_of self.now (record { header = header.now; body = body.now })) }
    {
        let message = read_message(header)?;
        match &self.known {
            None => first_glance(alloc, &message, body),
            Some(stream) => stream.glance(&message, body),
        }
    }

    // What a message tells.
    #[tactic(auto, unfolding(crate::specs::SaidRows::news_of, crate::specs::SaidRows::glance_of))]
    fn read(&mut self, alloc: Global, header: &Bytes, body: &Bytes) -> Result<Option<Batch>, Fault>
        ensures exact { Tells result self.old
            (record { header = header.now; body = body.now }) self.new }
        ensures first { RefusesFirst result
            (glance_of self.old (record { header = header.now; body = body.now })) }
    {
        let message = read_message(header.as_slice())?;
        match &mut self.known {
            None => {
                self.known = Some(begin(alloc, &message, body.as_slice())?);
                Ok(None)
            }
            Some(stream) => stream.next(alloc, &message, body),
        }
    }
}

// The schema of a message. Its names alone take memory, and where that is refused, the body that
// the message claims is looked at before that is told.
#[tactic(auto, unfolding(crate::specs::SaidRows::schema_sent))]
fn read_schema(alloc: Global, message: &Message<'_>, body: &[u8]) -> Result<Schema, Fault>
    ensures value { GivesUnlessMemory (λ schema. schema) result
        (schema_sent (message_seen message.now) body.now) }
    ensures first { RefusesFirst result (schema_sent (message_seen message.now) body.now) }
    ensures valid { IfOk result IsSchema }
{
    match message.schema(alloc) {
        Ok(schema) => {
            check_body(message, body)?;
            Ok(schema)
        }
        Err(Fault::OutOfMemory) => {
            check_body(message, body)?;
            Err(Fault::OutOfMemory)
        }
        Err(fault) => Err(fault),
    }
}

// What is known after the first message, which is a schema.
fn begin(alloc: Global, message: &Message<'_>, body: &[u8]) -> Result<Stream, Fault>
    ensures schema { GivesUnlessMemory (λ stream. stream.schema) result
        (first_schema (message_seen message.now).kind (message_seen message.now) body.now) }
    ensures dictionaries { IfOk result (λ stream. stream.dictionaries ≡ []) }
    ensures first { RefusesFirst result
        (first_schema (message_seen message.now).kind (message_seen message.now) body.now) }
{
    if message.kind != HeaderKind::Schema {
        return Err(Fault::BadBatch);
    }
    let schema = read_schema(alloc, message, body)?;
    Ok(Stream {
        schema,
        dictionaries: Dictionaries::new(alloc),
    })
}

// What is refused of a first message. Want of memory for its names refuses it for no other cause.
fn first_glance(alloc: Global, message: &Message<'_>, body: &[u8]) -> Result<(), Fault>
    ensures { Gives (λ done. done) result
        (first_glance (message_seen message.now).kind (message_seen message.now) body.now) }
{
    let Err(fault) = begin(alloc, message, body) else {
        return Ok(());
    };
    if fault == Fault::OutOfMemory {
        return Ok(());
    }
    Err(fault)
}

// Whether a type's dictionary has this id.
fn has_id(data_type: DataType, id: u64) -> bool
    ensures { result ≡ has_id id data_type }
{
    match data_type {
        DataType::Dictionary(encoding) => encoding.id == id,
        _ => false,
    }
}

// Whether a field's dictionary has this id.
fn has_dictionary(fields: &[Field], id: u64) -> bool
    ensures { result ≡ list_any (leads_to id) fields.now }
{
    for field in fields {
        if has_id(field.data_type, id) {
            return true;
        }
    }
    false
}

impl Stream {
    // What a message after the schema tells.
    fn next(
        &mut self,
        alloc: Global,
        message: &Message<'_>,
        body: &Bytes,
    ) -> Result<Option<Batch>, Fault>
        ensures exact { Answers result (Some self.old)
            (next_news (message_seen message.now).kind self.old (message_seen message.now) body.now)
            (Some self.new) }
        ensures first { RefusesFirst result (next_glance (message_seen message.now).kind self.old
            (message_seen message.now) body.now) }
    {
        match message.kind {
            HeaderKind::RecordBatch => Ok(Some(self.batch(alloc, message, body)?)),
            HeaderKind::DictionaryBatch => {
                self.learn(alloc, message, body)?;
                Ok(None)
            }
            HeaderKind::Schema => Err(Fault::BadBatch),
        }
    }

    // What is refused of a message after the schema.
    fn glance(&self, message: &Message<'_>, body: &[u8]) -> Result<(), Fault>
        ensures { Gives (λ done. done) result (next_glance (message_seen message.now).kind self.now
            (message_seen message.now) body.now) }
    {
        match message.kind {
            HeaderKind::RecordBatch => self.batch_parts(message, body)?.check_placed(body),
            HeaderKind::DictionaryBatch => self.dictionary(message, body)?.parts.check_placed(body),
            HeaderKind::Schema => Err(Fault::BadBatch),
        }
    }

    // The parts of a record batch.
    #[tactic(auto, unfolding(crate::specs::SaidRows::batch_parts))]
    fn batch_parts<'a>(&self, message: &Message<'a>, body: &[u8]) -> Result<Parts<'a>, Fault>
        ensures value { Gives parts_seen result
            (batch_parts self.now (message_seen message.now) body.now) }
        ensures nodes { IfOk result (λ parts. length (parts_seen parts).nodes
            ≡ length (self.now).schema.fields) }
    {
        let table = message.header()?;
        let parts = read_parts(message, &table, body)?;
        check_counts(self.schema.fields.as_slice(), &parts)?;
        Ok(parts)
    }

    // The record batch of a message.
    #[tactic(auto, unfolding(crate::specs::SaidRows::batch_sent))]
    fn batch(&self, alloc: Global, message: &Message<'_>, body: &Bytes) -> Result<Batch, Fault>
        ensures value { GivesUnlessMemory (λ batch. batch) result
            (batch_sent self.now (message_seen message.now) body.now) }
        ensures first { RefusesFirst result
            (batch_glance self.now (message_seen message.now) body.now) }
    {
        let parts = self.batch_parts(message, body.as_slice())?;
        parts.check_placed(body.as_slice())?;
        let source = ColumnSource {
            rows: parts.rows,
            body,
            dictionaries: &self.dictionaries,
        };
        let nodes = parts.nodes(alloc)?;
        let places = parts.places(alloc)?;
        let fields = self.schema.fields.as_slice();
        let columns = read_columns(alloc, fields, &source, nodes.as_slice(), places.as_slice())?;
        Ok(Batch::new(columns, parts.rows as usize))
    }

    // The parts of a dictionary.
    #[tactic(auto, unfolding(crate::specs::SaidRows::dictionary_sent))]
    fn dictionary<'a>(
        &self,
        message: &Message<'a>,
        body: &[u8],
    ) -> Result<DictionaryMessage<'a>, Fault>
        ensures { Gives dictionary_message_seen result
            (dictionary_sent self.now (message_seen message.now) body.now) }
    {
        let sent = read_dictionary(message, body)?;
        if !has_dictionary(self.schema.fields.as_slice(), sent.id) {
            return Err(Fault::BadBatch);
        }
        check_text_counts(&sent.parts)?;
        Ok(sent)
    }

    // Takes the values of a dictionary message: after those that are there where it is a delta, and
    // else in their place.
    #[tactic(auto, unfolding(crate::specs::SaidRows::known_after))]
    fn learn(&mut self, alloc: Global, message: &Message<'_>, body: &Bytes) -> Result<(), Fault>
        ensures ok { OnOk result
            (known_after self.old (message_seen message.now) body.now ≡ Ok self.new) }
        ensures err { IfErr result (λ fault. fault ≢ OutOfMemory →
            known_after self.old (message_seen message.now) body.now ≡ Err fault) }
        ensures stays { OnErr result (self.new ≡ self.old) }
        ensures first { RefusesFirst result
            (dictionary_glance self.old (message_seen message.now) body.now) }
    {
        let sent = self.dictionary(message, body.as_slice())?;
        sent.parts.check_placed(body.as_slice())?;
        let texts = read_texts(alloc, &sent.parts, body)?;
        let values = if sent.is_delta {
            self.dictionaries
                .get(alloc, sent.id)?
                .extended(alloc, texts)?
        } else {
            Dictionary::new(alloc).extended(alloc, texts)?
        };
        self.dictionaries.put(sent.id, Arc::new(alloc, values)?)?;
        Ok(())
    }
}
