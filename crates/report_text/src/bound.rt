//! The lines of a report on the bound.
ghost use Rattle.std.specs.Prelude.{◌≡◌, ◌++◌, OnOk, map};
ghost use Rattle.timing_chart.specs.Chart.{line_text, text_of};
ghost use Rattle.report_text.specs.Text.{bound_line, bound_lines, chain_line};

use crate::figures::Figures;
use crate::line::{append_end, append_ratio, name_of};
use lower_bound::{Link, Ratio};
use self_timed::Vertex;
use syn_base::{OutOfMemory, append, append_count};

/// Appends the bound, and the operations of a longest chain.
pub fn append_bound(
    out: &mut Vec<u8>,
    vertices: &[Vertex],
    figures: &Figures,
) -> Result<(), OutOfMemory>
    ensures { OnOk result (out.new.items ≡ out.old.items ++ text_of (bound_lines vertices.now figures.now)) }
{
    append_ticks(out, figures.numbers.bound, figures.numbers.above)?;
    append_chain(out, vertices, figures.chain.as_slice())
}

/// Appends the line of the bound.
fn append_ticks(out: &mut Vec<u8>, bound: u64, above: Ratio) -> Result<(), OutOfMemory>
    ensures { OnOk result (out.new.items ≡ out.old.items ++ line_text (bound_line bound above)) }
{
    append(out, b"bound ")?;
    append_count(out, bound as usize)?;
    append(out, b" ratio ")?;
    append_ratio(out, above)?;
    append(out, b"\n")
}

/// Appends the lines of a chain.
fn append_chain(out: &mut Vec<u8>, vertices: &[Vertex], chain: &[Link]) -> Result<(), OutOfMemory>
    ensures { OnOk result (out.new.items ≡ out.old.items ++ text_of (map (chain_line vertices.now) chain.now)) }
{
    for link in chain {
        append_link(out, vertices, *link)?;
    }
    Ok(())
}

/// Appends the line of an operation of a chain.
fn append_link(out: &mut Vec<u8>, vertices: &[Vertex], link: Link) -> Result<(), OutOfMemory>
    ensures { OnOk result (out.new.items ≡ out.old.items ++ line_text (chain_line vertices.now link)) }
{
    append(out, b"chain ")?;
    append(out, name_of(vertices, link.op))?;
    append_end(out, link.ticks)
}
