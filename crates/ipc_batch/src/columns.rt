//! The columns of a record batch.

ghost use Rattle.std.specs.Prelude.{◌≡◌, ◌==◌, length, IfOk, OnOk};
ghost use Rattle.scan_base.specs.Reading.{Gives, GivesUnlessMemory};
ghost use Rattle.arrays.specs.Layout.{layout_count};
ghost use Rattle.arrays.specs.Batch.{AreLong};
ghost use Rattle.arrays.specs.Buffers.{buffer_count, values_layout};
ghost use Rattle.ipc_batch.specs.Columns.{validity_at, texts_in_buffers, values_in_buffers};
ghost use Rattle.ipc_batch.specs.Columns.{values_led_to};
ghost use Rattle.ipc_batch.specs.Columns.{texts_front, values_front, front_of};
ghost use Rattle.ipc_batch.specs.Columns.{columns_from, buffers_wanted, counts_agree, one_texts};
ghost use Rattle.ipc_batch.specs.inside.PartsView.{parts_seen, front_seen};

use crate::dictionaries::Dictionaries;
use crate::parts::{BufferPlace, FieldNode, Parts, buffer, check_place};
use arrays::{Column, Slots, Texts};
use arrow_types::{DataType, Field};
use bytes::Bytes;
use scan_base::Fault;
use std::alloc::Global;

/// What the columns of a batch have in common: how many slots each has, the body in which their
/// buffers lie, and the dictionaries that indices lead into.
#[derive(Drop)]
pub(crate) struct ColumnSource<'a> {
    pub rows: u64,
    pub body: &'a Bytes,
    pub dictionaries: &'a Dictionaries,
}

/// The layout at the front of the buffers, and where those after it lie.
#[derive(Drop)]
pub(crate) struct Front<'a> {
    pub layout: Slots,
    pub behind: &'a [BufferPlace],
}

// How many buffers a column of a type has: validity and values, and for texts the offsets between.
fn buffer_count(data_type: DataType) -> usize
    ensures { result ≡ buffer_count data_type }
{
    match data_type {
        DataType::Utf8 => 3,
        _ => 2,
    }
}

// Whether the columns of these fields have so many buffers.
fn have_buffers(fields: &[Field], count: usize) -> bool
    ensures { result ≡ (count == buffers_wanted fields.now) }
{
    let mut left = count;
    for field in fields {
        let wanted = buffer_count(field.data_type);
        if left < wanted {
            return false;
        }
        left -= wanted;
    }
    left == 0
}

/// That a batch has a node and the buffers of a column for each field, with none left over: F8
/// where it has not. It takes no memory.
#[tactic(auto, unfolding(crate::specs::Columns::counts_agree))]
pub(crate) fn check_counts(fields: &[Field], parts: &Parts<'_>) -> Result<(), Fault>
    ensures nodes { OnOk result (length (parts_seen parts.now).nodes ≡ length fields.now) }
    ensures value { Gives (λ done. done) result
        (counts_agree (length fields.now) (buffers_wanted fields.now) (parts_seen parts.now)) }
{
    if parts.node_count() != fields.len() || !have_buffers(fields, parts.place_count()) {
        return Err(Fault::BadBatch);
    }
    Ok(())
}

/// That a dictionary has the node and the buffers of one column of texts, with none left over: F8
/// where it has not. It takes no memory.
#[tactic(auto, unfolding(crate::specs::Columns::counts_agree))]
pub(crate) fn check_text_counts(parts: &Parts<'_>) -> Result<(), Fault>
    ensures { Gives (λ done. done) result (counts_agree 1 3 (parts_seen parts.now)) }
{
    if parts.node_count() != 1 || parts.place_count() != 3 {
        return Err(Fault::BadBatch);
    }
    Ok(())
}

// The validity bits of a column, and none where its node counts no null.
#[tactic(auto, unfolding(crate::specs::Columns::validity_at))]
fn validity(body: &Bytes, node: FieldNode, place: BufferPlace) -> Result<Option<Bytes>, Fault>
    ensures { GivesUnlessMemory (λ bits. bits) result (validity_at body.now node place) }
{
    if node.null_count == 0 {
        check_place(body.as_slice(), place)?;
        return Ok(None);
    }
    Ok(Some(buffer(body, place)?))
}

// The texts whose validity bits, offsets and bytes lie in these buffers.
#[tactic(auto, unfolding(crate::specs::Columns::texts_in_buffers))]
fn texts(
    rows: u64,
    body: &Bytes,
    node: FieldNode,
    validity_place: BufferPlace,
    offsets_place: BufferPlace,
    bytes_place: BufferPlace,
) -> Result<Texts, Fault>
    ensures value { GivesUnlessMemory (λ cells. cells) result
        (texts_in_buffers rows body.now node validity_place offsets_place bytes_place) }
    ensures long { IfOk result (λ cells. cells.len ≡ rows) }
{
    if node.length != rows {
        return Err(Fault::BadBatch);
    }
    let bits = validity(body, node, validity_place)?;
    let offsets = buffer(body, offsets_place)?;
    let bytes = buffer(body, bytes_place)?;
    Texts::new(bits, offsets, bytes, rows as usize)
}

// Slots of a type whose values lie in one buffer, over their validity bits and that buffer.
#[tactic(auto, unfolding(arrays::specs::Buffers::values_layout))]
fn layout(
    alloc: Global,
    data_type: DataType,
    source: &ColumnSource<'_>,
    bits: Option<Bytes>,
    packed: Bytes,
) -> Result<Slots, Fault>
    ensures value { GivesUnlessMemory (λ layout. layout) result (values_layout data_type
        (values_led_to data_type source.now.dictionaries.now) bits packed source.now.rows) }
    ensures long { IfOk result (λ layout. layout_count layout ≡ source.now.rows) }
{
    let rows = source.rows as usize;
    Ok(match data_type {
        DataType::Number(number) => Slots::numbers(number.cell(), bits, packed, rows)?,
        DataType::Bool => Slots::bools(bits, packed, rows)?,
        DataType::Dictionary(encoding) => {
            let dictionary = source.dictionaries.get(alloc, encoding.id)?;
            Slots::indices(encoding.index, bits, packed, dictionary, rows)?
        }
        DataType::Utf8 => return Err(Fault::BadBatch),
    })
}

// The slots of such a type whose validity bits and packed values lie in these buffers.
#[tactic(auto, unfolding(crate::specs::Columns::values_in_buffers))]
fn values(
    alloc: Global,
    data_type: DataType,
    source: &ColumnSource<'_>,
    node: FieldNode,
    validity_place: BufferPlace,
    values_place: BufferPlace,
) -> Result<Slots, Fault>
    ensures value { GivesUnlessMemory (λ layout. layout) result (values_in_buffers data_type
        (values_led_to data_type source.now.dictionaries.now) source.now.rows source.now.body.now
        node validity_place values_place) }
    ensures long { IfOk result (λ layout. layout_count layout ≡ source.now.rows) }
{
    if node.length != source.rows {
        return Err(Fault::BadBatch);
    }
    let bits = validity(source.body, node, validity_place)?;
    let packed = buffer(source.body, values_place)?;
    layout(alloc, data_type, source, bits, packed)
}

// Texts, over the buffers at the front.
fn texts_front<'a>(
    source: &ColumnSource<'_>,
    node: FieldNode,
    places: &'a [BufferPlace],
) -> Result<Front<'a>, Fault>
    ensures value { GivesUnlessMemory front_seen result
        (texts_front source.now.rows source.now.body.now node places.now) }
    ensures long { IfOk result (λ front. layout_count front.layout ≡ source.now.rows) }
{
    let [validity, offsets, bytes, behind @ ..] = places else {
        return Err(Fault::BadBatch);
    };
    let cells = texts(source.rows, source.body, node, *validity, *offsets, *bytes)?;
    Ok(Front {
        layout: Slots::texts(cells),
        behind,
    })
}

// The slots of another type, over the buffers at the front.
fn values_front<'a>(
    alloc: Global,
    data_type: DataType,
    source: &ColumnSource<'_>,
    node: FieldNode,
    places: &'a [BufferPlace],
) -> Result<Front<'a>, Fault>
    ensures value { GivesUnlessMemory front_seen result (values_front data_type
        (values_led_to data_type source.now.dictionaries.now) source.now.rows source.now.body.now
        node places.now) }
    ensures long { IfOk result (λ front. layout_count front.layout ≡ source.now.rows) }
{
    let [validity, packed, behind @ ..] = places else {
        return Err(Fault::BadBatch);
    };
    let layout = values(alloc, data_type, source, node, *validity, *packed)?;
    Ok(Front { layout, behind })
}

// The slots of a type, over the buffers at the front.
#[tactic(auto, unfolding(crate::specs::Columns::front_of))]
fn read_front<'a>(
    alloc: Global,
    data_type: DataType,
    source: &ColumnSource<'_>,
    node: FieldNode,
    places: &'a [BufferPlace],
) -> Result<Front<'a>, Fault>
    ensures value { GivesUnlessMemory front_seen result
        (front_of data_type source.now.dictionaries.now source.now.rows source.now.body.now node
        places.now) }
    ensures long { IfOk result (λ front. layout_count front.layout ≡ source.now.rows) }
{
    match data_type {
        DataType::Utf8 => texts_front(source, node, places),
        _ => values_front(alloc, data_type, source, node, places),
    }
}

/// The columns of fields that have a node each, which are cuts of the body: no value is copied. F8
/// where a buffer is missing, lies outside the body or is too short, where texts or indices do not
/// stand, and where a node has not as many slots as there are rows.
pub(crate) fn read_columns(
    alloc: Global,
    fields: &[Field],
    source: &ColumnSource<'_>,
    nodes: &[FieldNode],
    places: &[BufferPlace],
) -> Result<Vec<Column>, Fault>
    requires { length fields.now ≡ length nodes.now }
    ensures value { GivesUnlessMemory (λ columns. columns.items) result (columns_from fields.now
        source.now.dictionaries.now source.now.rows source.now.body.now nodes.now places.now) }
    ensures long { IfOk result (λ columns. AreLong source.now.rows columns.items) }
{
    let mut columns = Vec::with_capacity(alloc, fields.len())?;
    let mut places = places;
    for (j, field) in fields.iter().enumerate() {
        let front = read_front(alloc, field.data_type, source, nodes[j], places)?;
        columns.push(Column::new(front.layout))?;
        places = front.behind;
    }
    Ok(columns)
}

/// The one column of texts that parts have: F8 where it does not stand, as for columns.
pub(crate) fn read_texts(alloc: Global, parts: &Parts<'_>, body: &Bytes) -> Result<Texts, Fault>
    ensures { GivesUnlessMemory (λ cells. cells) result (one_texts parts.now.rows body.now
        (parts_seen parts.now).nodes (parts_seen parts.now).places) }
{
    let nodes = parts.nodes(alloc)?;
    let places = parts.places(alloc)?;
    let [node] = nodes.as_slice() else {
        return Err(Fault::BadBatch);
    };
    let [validity, offsets, bytes] = places.as_slice() else {
        return Err(Fault::BadBatch);
    };
    texts(parts.rows, body, *node, *validity, *offsets, *bytes)
}
