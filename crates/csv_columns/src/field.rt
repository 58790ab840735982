//! Fields of records.

ghost use Rattle.std.specs.Prelude.{◌≡◌, [], get_or};
ghost use Rattle.csv.specs.Records.{fields_of};

use csv::ByteRecord;

/// The field at a place of a record, and no byte where it has none there.
pub fn field_in(fields: &ByteRecord, place: usize) -> &[u8]
    ensures { result.now ≡ get_or (fields_of fields.now) place [] }
{
    fields.get(place).unwrap_or(&[])
}
