//! The rows of a table, read record by record.
ghost use Rattle.std.specs.Prelude.{◌≡◌, ◌<◌, length, sum, suc, drop};
ghost use Rattle.csv.specs.Records.{fields_of};
ghost use Rattle.syn_base.specs.Integer.{integer_of};
ghost use Rattle.syn_base.specs.Limits.{bound_of};
ghost use Rattle.syn_base.specs.declared.limits.LimitKind.TheVariants.{Reactions};
ghost use Rattle.sensor_table.specs.Answers.{Gives, GivesList, Leaves, Pushes};
ghost use Rattle.sensor_table.specs.Reading.{IsReading, left_of};
ghost use Rattle.sensor_table.specs.SensorTable.{is_number, numbers_from, reactions_of, refused, row_of, rows_after, too_many, values_in, with_error};

use crate::fault::{SensorCause, SensorError, refusal};
use crate::records::{field_at, next_record};
use csv::{ByteRecord, ByteRecordsIntoIter};
use std::alloc::Global;
use syn_base::{LimitFault, LimitKind, SensorRows, read_int};

/// The rows of the records that are left, for sensors of these lengths and a header of this many columns.
pub fn read_rows(
    alloc: Global,
    lens: &[u32],
    columns: usize,
    records: &mut ByteRecordsIntoIter<&[u8]>,
) -> Result<SensorRows, SensorError>
    requires columns { columns ≡ suc (sum lens.now) }
    requires reading { IsReading records.old }
    ensures { Gives result (reactions_of lens.now (left_of records.old)) }
{
    let mut rows = SensorRows::new(alloc, lens)?;
    push_rows(alloc, columns, records, &mut rows)?;
    Ok(rows)
}

/// Reads the records that are left as the next rows.
fn push_rows(
    alloc: Global,
    columns: usize,
    records: &mut ByteRecordsIntoIter<&[u8]>,
    rows: &mut SensorRows,
) -> Result<(), SensorError>
    requires columns { columns ≡ suc (sum rows.old.lens) }
    requires reading { IsReading records.old }
    ensures { Leaves (rows_after rows.old (left_of records.old)) rows.old rows.new result }
{
    while let Some(record) = next_record(records)? {
        push_row(alloc, columns, &record, rows)?;
    }
    Ok(())
}

/// Reads a record as the next row.
fn push_row(
    alloc: Global,
    columns: usize,
    fields: &ByteRecord,
    rows: &mut SensorRows,
) -> Result<(), SensorError>
    requires { columns ≡ suc (sum rows.old.lens) }
    ensures { Pushes (row_of rows.old.lens (length rows.old.reactions) (fields_of fields.now))
        rows.old rows.new result }
{
    let reaction = rows.count();
    if reaction as u128 >= LimitKind::Reactions.bound() {
        return Err(above_bound());
    }
    let values = read_row(alloc, columns, reaction, fields)?;
    rows.push(&values)?;
    Ok(())
}

/// One reaction more than there may be.
fn above_bound() -> SensorError
    ensures { result ≡ too_many }
{
    SensorError::Limit(LimitFault {
        which: LimitKind::Reactions,
        count: LimitKind::Reactions.bound() + 1,
        bound: LimitKind::Reactions.bound(),
    })
}

/// The values of a reaction, after its number.
fn read_row(
    alloc: Global,
    columns: usize,
    reaction: usize,
    fields: &ByteRecord,
) -> Result<Vec<i64>, SensorError>
    requires columns { 0 < columns }
    requires reaction { reaction < bound_of Reactions }
    ensures { GivesList result (with_error (refused (suc reaction))
        (values_in columns reaction (fields_of fields.now))) }
{
    let row = reaction as u64 + 1;
    if fields.len() != columns {
        let cause = SensorCause::BadCount {
            found: fields.len() as u64,
            wanted: columns as u64,
        };
        return Err(refusal(row, cause));
    }
    if !is_index(reaction, field_at(fields, 0)) {
        return Err(refusal(row, SensorCause::BadIndex));
    }
    read_values(alloc, row, fields)
}

/// Whether a field is the number of this reaction.
fn is_index(reaction: usize, field: &[u8]) -> bool
    ensures { result ≡ is_number reaction (integer_of field.now) }
{
    match read_int(field) {
        Ok(number) => i128::from(number) == reaction as i128,
        Err(_) => false,
    }
}

/// The numbers of the fields after the first one.
fn read_values(alloc: Global, row: u64, fields: &ByteRecord) -> Result<Vec<i64>, SensorError>
    ensures { GivesList result (with_error (refused row) (numbers_from 1 (drop 1 (fields_of fields.now)))) }
{
    let mut values = Vec::new(alloc);
    for column in 1..fields.len() {
        match read_int(field_at(fields, column)) {
            Ok(value) => values.push(value)?,
            Err(_) => return Err(refusal(row, SensorCause::BadNumber(column))),
        }
    }
    Ok(values)
}
