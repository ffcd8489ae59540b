//! The header of a table, which `table` asks for before it reads rows.
ghost use Rattle.std.specs.Prelude.{◌≡◌, ◌++◌, map, IfOk, OnOk};
ghost use Rattle.std.specs.Cmp.Lexicographic.{pointwise};
ghost use Rattle.std.specs.Str.{bytes_eq};
ghost use Rattle.csv.specs.Records.{fields_of};
ghost use Rattle.algo_tree.specs.View.{kind_view, vertices_view};
ghost use Rattle.sensor_table.specs.Columns.{column, columns_in, columns_of, header_of};
ghost use Rattle.sensor_table.specs.SensorTable.{is_header};
ghost use Rattle.syn_base.specs.Numbers.{numbers_below};

use crate::records::field_at;
use algo_tree::{Kind, Tree, Vertex};
use csv::ByteRecord;
use std::alloc::Global;
use syn_base::{Items, OutOfMemory, len_at, print_int};

/// Whether a record is the header of the sensors of this algorithm.
pub fn is_header(alloc: Global, tree: &Tree, fields: &ByteRecord) -> Result<bool, OutOfMemory>
    ensures { IfOk result (λ same. same ≡ is_header tree.now (fields_of fields.now)) }
{
    let header = table_header(alloc, tree)?;
    Ok(are_fields(fields, &header))
}

/// Whether the fields of a record are these, in order.
fn are_fields(fields: &ByteRecord, wanted: &[Items<u8>]) -> bool
    ensures { result ≡ pointwise bytes_eq (fields_of fields.now) wanted.now }
{
    if fields.len() != wanted.len() {
        return false;
    }
    for (at, field) in wanted.iter().enumerate() {
        if field_at(fields, at) != field.as_slice() {
            return false;
        }
    }
    true
}

/// The header of the sensors of this algorithm.
pub fn table_header(alloc: Global, tree: &Tree) -> Result<Vec<Items<u8>>, OutOfMemory>
    ensures { IfOk result (λ header. header.items ≡ header_of tree.now) }
{
    let mut header = Vec::new(alloc);
    header.push(Items::new(Vec::from_slice(alloc, b"k")?))?;
    append_sensors(alloc, tree.main().inner.as_slice(), &mut header)?;
    Ok(header)
}

/// Appends the columns of the sensors among these vertices.
fn append_sensors(
    alloc: Global,
    vertices: &[Vertex],
    header: &mut Vec<Items<u8>>,
) -> Result<(), OutOfMemory>
    ensures { OnOk result (header.new.items ≡ header.old.items ++ columns_in (vertices_view vertices.now)) }
{
    for vertex in vertices {
        let name = vertex.part.name();
        let len = len_at(vertex.outs.as_slice(), 0);
        append_columns(alloc, &vertex.kind, name, len, header)?;
    }
    Ok(())
}

/// Appends the columns of a vertex of this name and length, if it is a sensor.
fn append_columns(
    alloc: Global,
    kind: &Kind,
    name: &[u8],
    len: u32,
    header: &mut Vec<Items<u8>>,
) -> Result<(), OutOfMemory>
    ensures { OnOk result (header.new.items ≡ header.old.items ++ columns_of (kind_view kind.now) name.now len) }
{
    match kind {
        Kind::Sensor(_) => append_elements(alloc, name, len, header),
        _ => Ok(()),
    }
}

/// Appends the columns of the elements of a sensor.
fn append_elements(
    alloc: Global,
    name: &[u8],
    len: u32,
    header: &mut Vec<Items<u8>>,
) -> Result<(), OutOfMemory>
    ensures { OnOk result (header.new.items ≡ header.old.items ++ map (column name.now) (numbers_below len)) }
{
    for j in 0..len {
        header.push(column(alloc, name, j)?)?;
    }
    Ok(())
}

/// The column of an element of a sensor.
fn column(alloc: Global, name: &[u8], j: u32) -> Result<Items<u8>, OutOfMemory>
    ensures { IfOk result (λ text. text ≡ column name.now j) }
{
    let mut text = Vec::from_slice(alloc, name)?;
    text.push(b'.')?;
    print_int(i64::from(j), &mut text)?;
    Ok(Items::new(text))
}
