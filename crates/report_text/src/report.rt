//! The text of a report as a whole.
ghost use Rattle.std.specs.Prelude.{◌≡◌, ◌++◌, OnErr, OnOk};
ghost use Rattle.report_text.specs.Text.{report_text};

use crate::beside::append_beside;
use crate::bound::append_bound;
use crate::figures::Figures;
use crate::period::append_many;
use crate::reaction::append_reaction;
use self_timed::{Archi, Flat, Vertex};
use std::alloc::Global;
use syn_base::OutOfMemory;

/// Appends the text of a report: its lines on one reaction, on what the schedule stands beside, and on many
/// reactions, the bound, and the operations of a longest chain. After want of memory `out` is as before.
pub fn print_report(
    alloc: Global,
    flat: &Flat,
    archi: &Archi,
    figures: &Figures,
    out: &mut Vec<u8>,
) -> Result<(), OutOfMemory>
    ensures text { OnOk result (out.new.items ≡ out.old.items ++
        report_text flat.now.vertices archi.now figures.now) }
    ensures err { OnErr result (out.new.items ≡ out.old.items) }
{
    let mut text = Vec::new(alloc);
    append_report(&mut text, flat.vertices(), archi, figures)?;
    out.extend_from_slice(&text)?;
    Ok(())
}

/// Appends the whole report. After want of memory part of it may stand there.
fn append_report(
    out: &mut Vec<u8>,
    vertices: &[Vertex],
    archi: &Archi,
    figures: &Figures,
) -> Result<(), OutOfMemory>
    ensures { OnOk result (out.new.items ≡ out.old.items ++ report_text vertices.now archi.now figures.now) }
{
    let numbers = &figures.numbers;
    append_reaction(out, archi, numbers, figures.transfers)?;
    append_beside(out, figures.beside, numbers.alone.as_slice())?;
    append_many(out, vertices, archi, figures)?;
    append_bound(out, vertices, figures)
}
