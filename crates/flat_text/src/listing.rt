//! The listing, line by line. `syndex_program` calls it.
ghost use Rattle.std.specs.Prelude.{◌≡◌, ◌++◌, OnOk, OnErr};
ghost use Rattle.flat_text.specs.Listing.{lines_from, listing};

use crate::line::append_line;
use flat_graph::{Flat, Vertex};
use std::alloc::Global;
use syn_base::OutOfMemory;

/// Appends the listing of a flat graph, a line for each operation: its number, its name, its kind and
/// definition, its guards, its inputs and the lengths of its outputs, separated by single spaces. An
/// input is `v.p`, output p of operation v, a guard is `v.p?c`, where c is the case; lists are joined by
/// commas, and an empty one is `-`. After want of memory `out` is as before.
pub fn print_flat(alloc: Global, flat: &Flat, out: &mut Vec<u8>) -> Result<(), OutOfMemory>
    ensures text { OnOk result (out.new.items ≡ out.old.items ++ listing flat.now) }
    ensures err { OnErr result (out.new.items ≡ out.old.items) }
{
    let mut text = Vec::new(alloc);
    append_lines(&mut text, flat.vertices())?;
    out.extend_from_slice(&text)?;
    Ok(())
}

/// Appends the lines of operations that are numbered from 0 on.
fn append_lines(out: &mut Vec<u8>, vertices: &[Vertex]) -> Result<(), OutOfMemory>
    ensures { OnOk result (out.new.items ≡ out.old.items ++ lines_from 0 vertices.now) }
{
    for (number, vertex) in vertices.iter().enumerate() {
        append_line(out, number, vertex)?;
    }
    Ok(())
}
