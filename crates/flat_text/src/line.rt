//! The line of an operation. `listing` calls it for each.
ghost use Rattle.std.specs.Prelude.{◌≡◌, ◌++◌, OnOk};
ghost use Rattle.flat_text.specs.Listing.{kind_word, vertex_head, vertex_line, vertex_lists};

use crate::list::append_list;
use flat_graph::{Kind, Vertex};
use syn_base::{OutOfMemory, append, append_count};

/// The word that stands for this kind in a listing.
fn word_of(kind: &Kind) -> &'static [u8]
    ensures { result.now ≡ kind_word kind.now }
{
    match kind {
        Kind::Sensor(_) => b"sensor",
        Kind::Actuator(_) => b"actuator",
        Kind::Function(_) => b"function",
        Kind::Constant(_) => b"constant",
        Kind::Get(_) => b"get",
        Kind::Set => b"set",
        Kind::Explode => b"explode",
        Kind::Implode => b"implode",
        Kind::Merge(_) => b"merge",
    }
}

/// Appends the line of operation `number`.
pub fn append_line(out: &mut Vec<u8>, number: usize, vertex: &Vertex) -> Result<(), OutOfMemory>
    ensures { OnOk result (out.new.items ≡ out.old.items ++ vertex_line number vertex.now) }
{
    append_head(out, number, vertex)?;
    append_lists(out, vertex)?;
    append(out, b"\n")
}

/// Appends number, name, kind and definition.
fn append_head(out: &mut Vec<u8>, number: usize, vertex: &Vertex) -> Result<(), OutOfMemory>
    ensures { OnOk result (out.new.items ≡ out.old.items ++ vertex_head number vertex.now) }
{
    append_count(out, number)?;
    append(out, b" ")?;
    append(out, vertex.name.as_slice())?;
    append(out, b" ")?;
    append(out, word_of(&vertex.kind))?;
    append(out, b":")?;
    append(out, vertex.def.as_bytes())
}

/// Appends guards, inputs and the lengths of outputs.
fn append_lists(out: &mut Vec<u8>, vertex: &Vertex) -> Result<(), OutOfMemory>
    ensures { OnOk result (out.new.items ≡ out.old.items ++ vertex_lists vertex.now) }
{
    append(out, b" ")?;
    append_list(out, vertex.guards.as_slice())?;
    append(out, b" ")?;
    append_list(out, vertex.ins.as_slice())?;
    append(out, b" ")?;
    append_list(out, vertex.outs.as_slice())
}
