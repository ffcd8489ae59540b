//! The text of the table.
ghost use Rattle.std.specs.Prelude.{◌≡◌, ◌++◌, IfOk, codes, length, map, replicate};
ghost use Rattle.csv.specs.Writing.{default_writer, row_text};
ghost use Rattle.sensor_table.specs.Template.{template_text};

use crate::header::table_header;
use crate::line::record_text;
use algo_tree::Tree;
use std::alloc::Global;
use syn_base::{Items, OutOfMemory, append};

/// The table of the sensors of this algorithm with one reaction, in which each element is 0.
pub fn template_text(alloc: Global, tree: &Tree) -> Result<Vec<u8>, OutOfMemory>
    ensures { IfOk result (λ text. text.items ≡ template_text tree.now) }
{
    let header = table_header(alloc, tree)?;
    template_of(alloc, &header)
}

/// The lines of this header and of a record with a 0 for each of its columns.
fn template_of(alloc: Global, header: &[Items<u8>]) -> Result<Vec<u8>, OutOfMemory>
    ensures { IfOk result (λ text. text.items ≡ row_text default_writer header.now ++
        row_text default_writer (replicate (length header.now) (codes "0"))) }
{
    let mut text = header_text(alloc, header)?;
    let zeros = zeros_text(alloc, header.len())?;
    append(&mut text, &zeros)?;
    Ok(text)
}

/// The line of a header.
fn header_text(alloc: Global, header: &[Items<u8>]) -> Result<Vec<u8>, OutOfMemory>
    ensures { IfOk result (λ text. text.items ≡ row_text default_writer header.now) }
{
    let fields = fields_of(alloc, header)?;
    record_text(alloc, &fields)
}

/// The line of a record with a 0 for each of this many columns.
fn zeros_text(alloc: Global, columns: usize) -> Result<Vec<u8>, OutOfMemory>
    ensures { IfOk result (λ text. text.items ≡
        row_text default_writer (replicate columns (codes "0"))) }
{
    let fields = zeros(alloc, columns)?;
    record_text(alloc, &fields)
}

/// The fields of a header.
fn fields_of<'a>(alloc: Global, header: &'a [Items<u8>]) -> Result<Vec<&'a [u8]>, OutOfMemory>
    ensures { IfOk result (λ fields. map (λ f. f.now) fields.items ≡ header.now) }
{
    let mut fields = Vec::new(alloc);
    for column in header {
        fields.push(column.as_slice())?;
    }
    Ok(fields)
}

/// A 0 for each of this many columns.
fn zeros(alloc: Global, columns: usize) -> Result<Vec<&'static [u8]>, OutOfMemory>
    ensures { IfOk result (λ fields. map (λ f. f.now) fields.items ≡
        replicate columns (codes "0")) }
{
    let mut fields = Vec::new(alloc);
    for _ in 0..columns {
        fields.push(b"0".as_slice())?;
    }
    Ok(fields)
}
