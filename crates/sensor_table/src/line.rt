//! A record as a line of a table.
ghost use Rattle.std.specs.Prelude.{◌≡◌, IfOk, map};
ghost use Rattle.csv.specs.Writing.{default_writer, row_text};

use csv::{Error, WriterBuilder};
use std::alloc::Global;
use syn_base::OutOfMemory;

/// The line of a record with these fields. A writer in memory meets no other fault than want of memory.
pub fn record_text(alloc: Global, fields: &[&[u8]]) -> Result<Vec<u8>, OutOfMemory>
    ensures { IfOk result (λ text. text.items ≡
        row_text default_writer (map (λ f. f.now) fields.now)) }
{
    match written(alloc, fields) {
        Ok(text) => Ok(text),
        Err(_) => Err(OutOfMemory),
    }
}

/// The same, with the error of `csv`.
fn written(alloc: Global, fields: &[&[u8]]) -> Result<Vec<u8>, Error>
    ensures { IfOk result (λ text. text.items ≡
        row_text default_writer (map (λ f. f.now) fields.now)) }
{
    let mut writer = WriterBuilder::new().from_writer(Vec::new(alloc));
    writer.write_fields(fields)?;
    match writer.into_inner() {
        Ok(text) => Ok(text),
        Err(error) => Err(error.into_error()),
    }
}
