//! The records of a text, which `table` and `rows` take one after another.
ghost use Rattle.std.specs.Prelude.{◌≡◌, [], slice_index_or, IfOk};
ghost use Rattle.csv.specs.Reading.{default_config, error_kind, records, strip_bom};
ghost use Rattle.csv.specs.Records.{fields_of};
ghost use Rattle.sensor_table.specs.Reading.{IsPlain, IsReading, Takes, left_of};

use csv::{ByteRecord, ByteRecordsIntoIter, Error, ErrorKind, ReaderBuilder};
use std::alloc::Global;
use syn_base::OutOfMemory;

/// The records of these bytes, the header one of them, each of its own length.
pub fn records_in(alloc: Global, bytes: &[u8]) -> ByteRecordsIntoIter<&[u8]>
    ensures left { left_of result ≡ records default_config (strip_bom bytes.now) }
    ensures reading { IsReading result }
{
    ReaderBuilder::new()
        .has_headers(false)
        .flexible(true)
        .from_reader(alloc, bytes)
        .into_byte_records()
}

/// Takes the next record, if there is one.
pub fn next_record(
    records: &mut ByteRecordsIntoIter<&[u8]>,
) -> Result<Option<ByteRecord>, OutOfMemory>
    requires { IsReading records.old }
    ensures { IfOk result (λ taken. Takes (left_of records.old) taken records.new) }
{
    match records.next() {
        Some(Ok(record)) => Ok(Some(record)),
        Some(Err(error)) => Err(want(&error)),
        None => Ok(None),
    }
}

/// The field in this column, which is empty after the last one.
pub fn field_at(fields: &ByteRecord, column: usize) -> &[u8]
    ensures { result.now ≡ slice_index_or (fields_of fields.now) column [] }
{
    fields.get(column).unwrap_or(&[])
}

/// The want of memory for which a record was not read. A slice of bytes gives no other error, though no
/// contract of `csv` rules out one of the reader underneath.
fn want(error: &Error) -> OutOfMemory
    requires { IsPlain (error_kind error.now) }
{
    match error.kind() {
        ErrorKind::Io(_) | ErrorKind::OutOfMemory => OutOfMemory,
        _ => unreachable!(),
    }
}
