//! The parts of a record batch, before any type is looked at.

ghost use Rattle.std.specs.Prelude.{◌≡◌, ◌==◌, ◌≤◌, ◌<◌, ◌+◌, ◌*◌, ◌^◌, length, IfOk, OnOk};
ghost use Rattle.std.specs.List.{list_all};
ghost use Rattle.scan_base.specs.Reading.{Gives, GivesUnlessMemory};
ghost use Rattle.arrow_schema.specs.MessageView.{message_seen};
ghost use Rattle.ipc_batch.specs.Parts.{word_at, node_at, place_at, nodes_in, places_in};
ghost use Rattle.ipc_batch.specs.Parts.{structs_wanted, lies_in, placed_in, buffer_at};
ghost use Rattle.ipc_batch.specs.Parts.{body_claimed};
ghost use Rattle.ipc_batch.specs.Parts.{parts_of, dictionary_parts};
ghost use Rattle.ipc_batch.specs.Columns.{columns_placed};
ghost use Rattle.ipc_batch.specs.inside.PartsView.{parts_seen, dictionary_message_seen};

use arrow_schema::Message;
use byteorder::{ByteOrder, LittleEndian};
use bytes::Bytes;
use flatbuf::{Table, Width};
use scan_base::Fault;
use std::alloc::{AllocError, Global};

/// A node: how many slots a column has, and how many of them are null. A negative number reads as 2
/// to the 63 or more.
#[derive(Clone, Copy)]
pub(crate) struct FieldNode {
    pub length: u64,
    pub null_count: u64,
}

/// Where a buffer lies in a message's body, in bytes. A negative number reads as 2 to the 63 or
/// more.
#[derive(Clone, Copy)]
pub(crate) struct BufferPlace {
    pub offset: u64,
    pub length: u64,
}

/// How many bytes a node, or the place of a buffer, has in a header.
pub(crate) const STRUCT_BYTES: usize = 16;

/// The parts of a record batch: how many rows it has, and where they lie in the header the packed
/// nodes of its columns and the packed places of their buffers.
#[derive(Drop)]
pub(crate) struct Parts<'a> {
    pub rows: u64,
    nodes: &'a [u8],
    places: &'a [u8],
}

impl Parts<'_> {
    /// How many nodes there are. It takes no memory, however many they are.
    #[tactic(auto, using(crate::proofs::Lengths::nodes_many))]
    pub fn node_count(&self) -> usize
        ensures { result ≡ length (parts_seen self.now).nodes }
    {
        self.nodes.len() / STRUCT_BYTES
    }

    /// How many places of buffers there are. It takes no memory, however many they are.
    #[tactic(auto, using(crate::proofs::Lengths::places_many))]
    pub fn place_count(&self) -> usize
        ensures { result ≡ length (parts_seen self.now).places }
    {
        self.places.len() / STRUCT_BYTES
    }

    /// That each node has as many slots as there are rows, and that each buffer lies within the
    /// body: F8 where it is not so. It takes no memory.
    #[tactic(auto, unfolding(crate::specs::Columns::columns_placed))]
    pub fn check_placed(&self, body: &[u8]) -> Result<(), Fault>
        ensures { Gives (λ done. done) result (columns_placed body.now (parts_seen self.now)) }
    {
        if !are_long(self.nodes, self.rows) || !lie_within(self.places, body) {
            return Err(Fault::BadBatch);
        }
        Ok(())
    }

    /// The nodes, in order.
    pub fn nodes(&self, alloc: Global) -> Result<Vec<FieldNode>, AllocError>
        ensures { IfOk result (λ nodes. nodes.items ≡ (parts_seen self.now).nodes) }
    {
        unpacked_nodes(alloc, self.nodes)
    }

    /// The places, in order.
    pub fn places(&self, alloc: Global) -> Result<Vec<BufferPlace>, AllocError>
        ensures { IfOk result (λ places. places.items ≡ (parts_seen self.now).places) }
    {
        unpacked_places(alloc, self.places)
    }
}

// The number of eight bytes at a place.
fn word(bytes: &[u8], at: usize) -> u64
    requires { at + 8 ≤ length bytes.now }
    ensures { result ≡ word_at bytes.now at }
{
    LittleEndian::read_u64(&bytes[at..])
}

// The node that lies in struct j of packed structs.
fn node(structs: &[u8], j: usize) -> FieldNode
    requires { 16 * j + 16 ≤ length structs.now }
    ensures { result ≡ node_at structs.now j }
{
    FieldNode {
        length: word(structs, 16 * j),
        null_count: word(structs, 16 * j + 8),
    }
}

// Whether each node of packed structs has so many slots.
fn are_long(structs: &[u8], rows: u64) -> bool
    ensures { result ≡ list_all (λ node. node.length == rows) (nodes_in structs.now) }
{
    let mut all = true;
    for j in 0..structs.len() / STRUCT_BYTES {
        all = all & (node(structs, j).length == rows);
    }
    all
}

// The nodes that lie in packed structs.
fn unpacked_nodes(alloc: Global, structs: &[u8]) -> Result<Vec<FieldNode>, AllocError>
    ensures { IfOk result (λ nodes. nodes.items ≡ nodes_in structs.now) }
{
    let count = structs.len() / STRUCT_BYTES;
    let mut nodes = Vec::with_capacity(alloc, count)?;
    for j in 0..count {
        nodes.push(node(structs, j))?;
    }
    Ok(nodes)
}

// The place that lies in struct j of packed structs.
fn place(structs: &[u8], j: usize) -> BufferPlace
    requires { 16 * j + 16 ≤ length structs.now }
    ensures { result ≡ place_at structs.now j }
{
    BufferPlace {
        offset: word(structs, 16 * j),
        length: word(structs, 16 * j + 8),
    }
}

// Whether each place of packed structs lies within the body.
fn lie_within(structs: &[u8], body: &[u8]) -> bool
    ensures { result ≡ list_all (lies_in body.now) (places_in structs.now) }
{
    let mut all = true;
    for j in 0..structs.len() / STRUCT_BYTES {
        all = all & lies_in(body, place(structs, j));
    }
    all
}

// The places that lie in packed structs.
fn unpacked_places(alloc: Global, structs: &[u8]) -> Result<Vec<BufferPlace>, AllocError>
    ensures { IfOk result (λ places. places.items ≡ places_in structs.now) }
{
    let count = structs.len() / STRUCT_BYTES;
    let mut places = Vec::with_capacity(alloc, count)?;
    for j in 0..count {
        places.push(place(structs, j))?;
    }
    Ok(places)
}

// The structs of a slot, which has to be there.
#[tactic(auto, unfolding(crate::specs::Parts::structs_wanted))]
fn structs<'a>(table: &Table<'a>, slot: u16) -> Result<&'a [u8], Fault>
    ensures { Gives (λ structs. structs.now) result (structs_wanted table.now slot) }
{
    table.structs(slot, 16)?.ok_or(Fault::BadFlatbuffer)
}

// Whether a buffer lies within the body.
fn lies_in(body: &[u8], place: BufferPlace) -> bool
    ensures { result ≡ lies_in body.now place }
{
    let room = body.len() as u64;
    place.offset <= room && place.length <= room - place.offset
}

/// That a buffer lies within the body: F8 where it does not.
pub(crate) fn check_place(body: &[u8], place: BufferPlace) -> Result<(), Fault>
    ensures exact { Gives (λ done. done) result (placed_in body.now place) }
    ensures within { OnOk result (place.offset + place.length ≤ length body.now) }
    ensures fits { OnOk result (place.offset + place.length < 2 ^ 64) }
{
    if !lies_in(body, place) {
        return Err(Fault::BadBatch);
    }
    Ok(())
}

/// The bytes of a buffer, cut from the body: they are shared, not copied. F8 where they do not lie
/// within it.
#[tactic(auto, unfolding(crate::specs::Parts::buffer_at))]
pub(crate) fn buffer(body: &Bytes, place: BufferPlace) -> Result<Bytes, Fault>
    ensures { GivesUnlessMemory (λ buffer. buffer) result (buffer_at body.now place) }
{
    check_place(body.as_slice(), place)?;
    let end = place.offset + place.length;
    Ok(body.slice(place.offset as usize..end as usize)?)
}

/// That the body has as many bytes as the message claims: F8 where it has less.
#[tactic(auto, unfolding(crate::specs::Parts::body_claimed))]
pub(crate) fn check_body(message: &Message<'_>, body: &[u8]) -> Result<(), Fault>
    ensures { Gives (λ done. done) result (body_claimed (message_seen message.now) body.now) }
{
    if message.body_length()? > body.len() as u64 {
        return Err(Fault::BadBatch);
    }
    Ok(())
}

/// The parts of the record batch whose table a message has.
#[tactic(auto, unfolding(crate::specs::Parts::parts_of))]
pub(crate) fn read_parts<'a>(
    message: &Message<'a>,
    table: &Table<'a>,
    body: &[u8],
) -> Result<Parts<'a>, Fault>
    ensures { Gives parts_seen result (parts_of (message_seen message.now) table.now body.now) }
{
    let rows = table.scalar(0, Width::Eight, 0)?;
    let nodes = structs(table, 1)?;
    let places = structs(table, 2)?;
    if table.table(3)?.is_some() {
        return Err(Fault::UnsupportedArrow);
    }
    check_body(message, body)?;
    Ok(Parts {
        rows,
        nodes,
        places,
    })
}

/// What a dictionary message says before its values are looked at: an id, the parts of the values,
/// and whether they stand after the old ones.
#[derive(Drop)]
pub(crate) struct DictionaryMessage<'a> {
    pub id: u64,
    pub parts: Parts<'a>,
    pub is_delta: bool,
}

/// The parts of a dictionary message.
#[tactic(auto, unfolding(crate::specs::Parts::dictionary_parts, arrow_schema::specs::Header::table_wanted))]
pub(crate) fn read_dictionary<'a>(
    message: &Message<'a>,
    body: &[u8],
) -> Result<DictionaryMessage<'a>, Fault>
    ensures { Gives dictionary_message_seen result
        (dictionary_parts (message_seen message.now) body.now) }
{
    let table = message.header()?;
    let id = table.scalar(0, Width::Eight, 0)?;
    let values = table.table(1)?.ok_or(Fault::BadFlatbuffer)?;
    let is_delta = table.scalar(2, Width::One, 0)? != 0;
    let parts = read_parts(message, &values, body)?;
    Ok(DictionaryMessage {
        id,
        parts,
        is_delta,
    })
}
