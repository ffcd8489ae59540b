//! The reading of a table: `read_sensors`.
ghost use Rattle.std.specs.Prelude.{◌∷◌};
ghost use Rattle.csv.specs.Reading.{default_config, records, strip_bom};
ghost use Rattle.csv.specs.Records.{fields_of};
ghost use Rattle.sensor_table.specs.Answers.{Gives};
ghost use Rattle.sensor_table.specs.Reading.{IsReading, left_of};
ghost use Rattle.sensor_table.specs.SensorTable.{rows_of};

use crate::fault::{SensorCause, SensorError, refusal};
use crate::header::is_header;
use crate::records::{next_record, records_in};
use crate::rows::read_rows;
use algo_tree::Tree;
use csv::{ByteRecord, ByteRecordsIntoIter};
use std::alloc::Global;
use syn_base::SensorRows;

/// The rows of a sensor table for this algorithm, or its first refusal in the order of its records: Refused
/// with the row and the cause, or Limit. OutOfMemory may come in place of any of these.
pub fn read_sensors(alloc: Global, bytes: &[u8], tree: &Tree) -> Result<SensorRows, SensorError>
    ensures { Gives result (rows_of tree.now (records default_config (strip_bom bytes.now))) }
{
    let mut records = records_in(alloc, bytes);
    read_table(alloc, tree, &mut records)
}

/// The rows of the records that are left, of which the first is to be the header.
fn read_table(
    alloc: Global,
    tree: &Tree,
    records: &mut ByteRecordsIntoIter<&[u8]>,
) -> Result<SensorRows, SensorError>
    requires { IsReading records.old }
    ensures { Gives result (rows_of tree.now (left_of records.old)) }
{
    let Some(header) = next_record(records)? else {
        return Err(refusal(0, SensorCause::BadHeader));
    };
    read_below(alloc, tree, &header, records)
}

/// The rows of the records below this header, if it is that of the sensors.
fn read_below(
    alloc: Global,
    tree: &Tree,
    header: &ByteRecord,
    records: &mut ByteRecordsIntoIter<&[u8]>,
) -> Result<SensorRows, SensorError>
    requires { IsReading records.old }
    ensures { Gives result (rows_of tree.now (fields_of header.now ∷ left_of records.old)) }
{
    if !is_header(alloc, tree, header)? {
        return Err(refusal(0, SensorCause::BadHeader));
    }
    let lens = tree.sensor_lens(alloc)?;
    read_rows(alloc, &lens, header.len(), records)
}
