//! Reading a schema from the header of a message: one function for each table.

ghost use Rattle.std.specs.Prelude.{◌≡◌, ◌≤◌, ◌<◌, All, IfOk, length};
ghost use Rattle.std.specs.List.{list_any, range_with_len};
ghost use Rattle.scan_base.specs.Limits.{most_columns};
ghost use Rattle.scan_base.specs.Reading.{Gives, GivesUnlessMemory, RefusesFirst};
ghost use Rattle.scan_base.specs.Lists.{each, repeats};
ghost use Rattle.arrow_types.specs.Schema.{shares_dictionary, same_dictionary};
ghost use Rattle.arrow_types.specs.Schema.{IsName, IsType, IsField, IsSchema};
ghost use Rattle.arrow_schema.specs.Fields.{vector_wanted, name_of, value_type_of, childless};
ghost use Rattle.arrow_schema.specs.Fields.{index_of, dictionary_of, encoded, field_in};
ghost use Rattle.arrow_schema.specs.Header.{field_at, fields_of};
ghost use Rattle.arrow_schema.specs.Header.{is_schema, schema_message_of, schema_in, schema_of};
ghost use Rattle.arrow_schema.specs.MessageView.{message_seen};

use crate::borrowed_fields::{BorrowedField, owned};
use crate::header::{HeaderKind, Message, read_message};
use crate::type_tables::{integer, type_from};
use arrayvec::ArrayVec;
use arrow_types::{DataType, DictionaryEncoding, IntegerType, MAX_COLUMNS, MAX_NAME_BYTES, Schema};
use flatbuf::{Table, Vector, Width};
use scan_base::Fault;
use std::alloc::Global;

// The columns of a schema, held without memory.
type BorrowedFields<'a> = ArrayVec<BorrowedField<'a>, MAX_COLUMNS>;

#[tactic(auto, unfolding(crate::specs::Fields::vector_wanted))]
fn vector_wanted<'a>(table: &Table<'a>, slot: u16) -> Result<Vector<'a>, Fault>
    ensures { Gives (λ vector. vector) result (vector_wanted table.now slot) }
{
    table.vector(slot)?.ok_or(Fault::BadFlatbuffer)
}

// A name of one byte or more, up to the limit.
#[tactic(auto, unfolding(crate::specs::Fields::name_of))]
fn name<'a>(field: &Table<'a>) -> Result<&'a str, Fault>
    ensures value { Gives (λ name. name.now) result (name_of field.now) }
    ensures valid { IfOk result (λ name. IsName name.now) }
{
    let name = field.text(0)?.ok_or(Fault::LimitReached)?;
    if name.is_empty() || name.len() > MAX_NAME_BYTES {
        return Err(Fault::LimitReached);
    }
    Ok(name)
}

/// The type of the values that a Field table says, as Arrow's `Schema.fbs` names it. Where the
/// field has a dictionary, it is the type of the dictionary's values.
///
/// # Errors
///
/// - F6 (`Fault::BadFlatbuffer`) where the kind or the type's table is absent, or something that is
///   read lies outside the buffer.
/// - F7 (`Fault::UnsupportedArrow`) for a type that is not taken.
#[tactic(auto, unfolding(crate::specs::Fields::value_type_of))]
pub fn value_type(field: &Table<'_>) -> Result<DataType, Fault>
    ensures value { Gives (λ data_type. data_type) result (value_type_of field.now) }
    ensures valid { IfOk result IsType }
{
    if field.field(2)?.is_none() {
        return Err(Fault::BadFlatbuffer);
    }
    let kind = field.scalar(2, Width::One, 0)?;
    type_from(kind, field)
}

#[tactic(auto, unfolding(crate::specs::Fields::childless))]
fn childless(field: &Table<'_>) -> Result<(), Fault>
    ensures { Gives (λ _. tt) result (childless field.now) }
{
    match field.vector(5)? {
        Some(children) if children.len() != 0 => Err(Fault::UnsupportedArrow),
        _ => Ok(()),
    }
}

fn index_type(found: &Option<Table<'_>>) -> Result<IntegerType, Fault>
    ensures { Gives (λ index. index) result (index_of found.now) }
{
    match found {
        None => Ok(IntegerType::Int32),
        Some(table) => integer(table),
    }
}

// A dictionary of texts.
#[tactic(auto, unfolding(crate::specs::Fields::dictionary_of))]
fn dictionary(table: &Table<'_>) -> Result<DataType, Fault>
    ensures value { Gives (λ data_type. data_type) result (dictionary_of table.now) }
    ensures valid { IfOk result IsType }
{
    let id = table.scalar(0, Width::Eight, 0)?;
    let found = table.table(1)?;
    let index = index_type(&found)?;
    if table.scalar(3, Width::Two, 0)? != 0 {
        return Err(Fault::UnsupportedArrow);
    }
    Ok(DataType::Dictionary(DictionaryEncoding { id, index }))
}

// The type of a column of these values, which are texts where it has a dictionary.
fn encoded(values: DataType, encoding: &Option<Table<'_>>) -> Result<DataType, Fault>
    ensures value { Gives (λ data_type. data_type) result (encoded values encoding.now) }
    ensures valid { IsType values → IfOk result IsType }
{
    match (values, encoding) {
        (_, None) => Ok(values),
        (DataType::Utf8, Some(table)) => dictionary(table),
        (_, Some(_)) => Err(Fault::UnsupportedArrow),
    }
}

#[tactic(auto, unfolding(crate::specs::Fields::field_in))]
fn field_from<'a>(field: &Table<'a>) -> Result<BorrowedField<'a>, Fault>
    ensures value { Gives (λ field. field) result (field_in field.now) }
    ensures valid { IfOk result IsField }
{
    let name = name(field)?;
    let nullable = field.scalar(1, Width::One, 0)?;
    let values = value_type(field)?;
    childless(field)?;
    let encoding = field.table(4)?;
    let data_type = encoded(values, &encoding)?;
    Ok(BorrowedField::new(name, nullable != 0, data_type))
}

#[tactic(auto, unfolding(crate::specs::Header::field_at))]
fn field_at<'a>(vector: &Vector<'a>, index: usize) -> Result<BorrowedField<'a>, Fault>
    requires { index < (vector.now).count }
    ensures value { Gives (λ field. field) result (field_at vector.now index) }
    ensures valid { IfOk result IsField }
{
    field_from(&vector.table(index)?)
}

// Each field of a vector of one or more, up to the limit.
#[tactic(auto, unfolding(crate::specs::Header::fields_of))]
fn fields<'a>(vector: &Vector<'a>) -> Result<BorrowedFields<'a>, Fault>
    ensures value { Gives (λ fields. fields.items) result (fields_of vector.now) }
    ensures some { IfOk result (λ fields. 1 ≤ length fields.items) }
    ensures few { IfOk result (λ fields. length fields.items ≤ most_columns) }
    ensures valid { IfOk result (λ fields. All IsField fields.items) }
{
    if vector.is_empty() || vector.len() > MAX_COLUMNS {
        return Err(Fault::LimitReached);
    }
    each_field(vector)
}

fn each_field<'a>(vector: &Vector<'a>) -> Result<BorrowedFields<'a>, Fault>
    requires { (vector.now).count ≤ most_columns }
    ensures value { Gives (λ fields. fields.items) result
        (each (field_at vector.now) (range_with_len 0 (vector.now).count)) }
    ensures count { IfOk result (λ fields. length fields.items ≡ (vector.now).count) }
    ensures valid { IfOk result (λ fields. All IsField fields.items) }
{
    let mut fields = ArrayVec::new();
    for index in 0..vector.len() {
        fields.push(field_at(vector, index)?);
    }
    Ok(fields)
}

fn shares_dictionary(one: DataType, other: DataType) -> bool
    ensures { result ≡ shares_dictionary one other }
{
    match (one, other) {
        (DataType::Dictionary(one), DataType::Dictionary(other)) => one.id == other.id,
        _ => false,
    }
}

// Whether one of the others has the dictionary of a field.
fn is_shared(field: &BorrowedField<'_>, others: &[BorrowedField<'_>]) -> bool
    ensures { result ≡ list_any (same_dictionary field.now) others.now }
{
    for other in others {
        if shares_dictionary(field.data_type(), other.data_type()) {
            return true;
        }
    }
    false
}

// Whether two of the fields have one dictionary.
fn repeats_dictionary(fields: &[BorrowedField<'_>]) -> bool
    ensures { result ≡ repeats same_dictionary fields.now }
{
    for index in 0..fields.len() {
        if is_shared(&fields[index], &fields[index + 1..]) {
            return true;
        }
    }
    false
}

// The columns of a schema, read without memory.
#[tactic(auto, unfolding(crate::specs::Header::schema_in))]
fn columns<'a>(message: &Message<'a>) -> Result<BorrowedFields<'a>, Fault>
    ensures value { Gives (λ fields. record { fields = fields.items }) result
        (schema_in (message_seen message.now)) }
    ensures valid { IfOk result (λ fields. IsSchema (record { fields = fields.items })) }
{
    let header = message.header()?;
    if header.scalar(0, Width::Two, 0)? != 0 {
        return Err(Fault::UnsupportedArrow);
    }
    let vector = vector_wanted(&header, 1)?;
    let fields = fields(&vector)?;
    if repeats_dictionary(fields.as_slice()) {
        return Err(Fault::UnsupportedArrow);
    }
    Ok(fields)
}

impl Message<'_> {
    /// The schema that the header names, of 1 to [`MAX_COLUMNS`] columns, as Arrow's `Schema.fbs`
    /// says. The header's kind is not looked at: it is the caller who knows that it is a Schema.
    /// The first fault in the order of the reads is the answer. The one thing that is kept in
    /// memory is each column's name, and that once all else was read.
    ///
    /// # Errors
    ///
    /// - F6 (`Fault::BadFlatbuffer`) where something that is read lies outside the buffer, a name
    ///   is not UTF-8, or the header, its fields, a type or a type's kind is absent.
    /// - F7 (`Fault::UnsupportedArrow`) for big-endian data, another type or width, children, a
    ///   dictionary of other values than Utf8 or of another kind, and one dictionary id on two
    ///   columns.
    /// - F12 (`Fault::LimitReached`) for no column, more than [`MAX_COLUMNS`], and a name that is
    ///   absent, empty or above [`MAX_NAME_BYTES`].
    /// - F21 (`Fault::OutOfMemory`) where memory is refused, and never for a header that is refused
    ///   for another cause.
    pub fn schema(&self, alloc: Global) -> Result<Schema, Fault>
        ensures value { GivesUnlessMemory (λ schema. schema) result
            (schema_in (message_seen self.now)) }
        ensures refused { RefusesFirst result (schema_in (message_seen self.now)) }
        ensures valid { IfOk result IsSchema }
    {
        let columns = columns(self)?;
        let fields = owned(alloc, columns.as_slice())?;
        Ok(Schema { fields })
    }
}

fn is_schema(kind: HeaderKind) -> bool
    ensures { result ≡ is_schema kind }
{
    matches!(kind, HeaderKind::Schema)
}

#[tactic(auto, unfolding(crate::specs::Header::schema_message_of))]
fn schema_message(bytes: &[u8]) -> Result<Message<'_>, Fault>
    ensures { Gives message_seen result (schema_message_of bytes.now) }
{
    let message = read_message(bytes)?;
    if !is_schema(message.kind) {
        return Err(Fault::UnsupportedArrow);
    }
    Ok(message)
}

/// The schema that a buffer holds, as Arrow's `Message.fbs` and `Schema.fbs` say: a message of
/// metadata version V5 whose header is a Schema.
///
/// # Errors
///
/// Those of [`read_message`] and of [`Message::schema`], and F7 (`Fault::UnsupportedArrow`) for
/// another kind of header.
#[tactic(auto, unfolding(crate::specs::Header::schema_of))]
pub fn read_schema(alloc: Global, bytes: &[u8]) -> Result<Schema, Fault>
    ensures value { GivesUnlessMemory (λ schema. schema) result (schema_of bytes.now) }
    ensures refused { RefusesFirst result (schema_of bytes.now) }
    ensures valid { IfOk result IsSchema }
{
    schema_message(bytes)?.schema(alloc)
}
