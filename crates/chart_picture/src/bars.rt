//! The bars of a chart.
ghost use Rattle.std.specs.Prelude.{◌≡◌, ◌++◌, [], OnOk, codes, length, slice_get};
ghost use Rattle.std.specs.Fmt.{decimal};
ghost use Rattle.self_timed.specs.Graph.{with_vertex};
ghost use Rattle.self_timed.specs.Acts.{carry, run};
ghost use Rattle.chart_picture.specs.Bars.{act_class, bar_line, bar_of, class_of, dates_text, label_text, label_words, title_of, way_text};

use crate::sheet::{Sheet, medium_name, operation_name, operator_name};
use self_timed::{Archi, Decision, Flat, Kind, Transfer};
use svg_text::{begin_bar, begin_text, end_bar, end_text, fits, middle};
use syn_base::{OutOfMemory, append, append_count};

/// Appends the bar of an operation.
pub fn append_run(out: &mut Vec<u8>, sheet: &Sheet, decision: &Decision) -> Result<(), OutOfMemory>
    ensures { OnOk result (out.new.items ≡ out.old.items ++ bar_line
        (bar_of sheet.now.flat.now sheet.now.archi.now sheet.now.scale (run decision.now))) }
{
    let left = sheet.scale.place(decision.start);
    let right = sheet.scale.place(decision.end);
    begin_bar(out, class_of_run(sheet.flat, decision.op), left, right)?;
    append_title_of_run(out, sheet, decision.start, decision.end, decision)?;
    end_bar(out)?;
    append_label(out, left, right, operation_name(sheet.flat, decision.op))
}

/// Appends the bar of a transfer.
pub fn append_carry(out: &mut Vec<u8>, sheet: &Sheet, transfer: Transfer) -> Result<(), OutOfMemory>
    ensures { OnOk result (out.new.items ≡ out.old.items ++ bar_line
        (bar_of sheet.now.flat.now sheet.now.archi.now sheet.now.scale (carry transfer))) }
{
    let left = sheet.scale.place(transfer.start);
    let right = sheet.scale.place(transfer.end);
    begin_bar(out, b"transfer", left, right)?;
    append_title_of_transfer(out, sheet, transfer.start, transfer.end, transfer)?;
    end_bar(out)?;
    append_label(
        out,
        left,
        right,
        operation_name(sheet.flat, transfer.source.vertex),
    )
}

/// Appends the label of a bar from one place to another, where it fits.
#[tactic(auto, unfolding(crate::specs::Bars::label_text))]
pub fn append_label(
    out: &mut Vec<u8>,
    left: u64,
    right: u64,
    label: &[u8],
) -> Result<(), OutOfMemory>
    ensures { OnOk result (out.new.items ≡ out.old.items ++ label_text left right label.now) }
{
    if fits(label.len(), left, right) {
        append_words(out, middle(left, right), label)
    } else {
        Ok(())
    }
}

/// Appends a label in the middle of a bar.
fn append_words(out: &mut Vec<u8>, middle: u64, label: &[u8]) -> Result<(), OutOfMemory>
    ensures { OnOk result (out.new.items ≡ out.old.items ++ label_words middle label.now) }
{
    begin_text(out, b"label", middle, b"22")?;
    append(out, label)?;
    end_text(out)
}

/// Appends the title of an operation that lasts from a start to an end.
pub fn append_title_of_run(
    out: &mut Vec<u8>,
    sheet: &Sheet,
    start: u64,
    end: u64,
    decision: &Decision,
) -> Result<(), OutOfMemory>
    ensures { OnOk result (out.new.items ≡
        out.old.items ++ title_of sheet.now.flat.now sheet.now.archi.now start end (run decision.now)) }
{
    append(out, operation_name(sheet.flat, decision.op))?;
    append_dates(out, start, end)?;
    append(out, b" on ")?;
    append(out, operator_name(sheet.archi, decision.operator))
}

/// Appends the title of a transfer that lasts from a start to an end.
pub fn append_title_of_transfer(
    out: &mut Vec<u8>,
    sheet: &Sheet,
    start: u64,
    end: u64,
    transfer: Transfer,
) -> Result<(), OutOfMemory>
    ensures { OnOk result (out.new.items ≡
        out.old.items ++ title_of sheet.now.flat.now sheet.now.archi.now start end (carry transfer)) }
{
    append(out, operation_name(sheet.flat, transfer.source.vertex))?;
    append(out, b", output ")?;
    append_count(out, transfer.source.port as usize)?;
    append_dates(out, start, end)?;
    append_way(out, sheet.archi, transfer)
}

/// Appends both dates.
fn append_dates(out: &mut Vec<u8>, start: u64, end: u64) -> Result<(), OutOfMemory>
    ensures { OnOk result (out.new.items ≡ out.old.items ++ dates_text start end) }
{
    append(out, b": ")?;
    append_count(out, start as usize)?;
    append(out, b" to ")?;
    append_count(out, end as usize)
}

/// Appends the medium of a transfer, and both operators.
fn append_way(out: &mut Vec<u8>, archi: &Archi, transfer: Transfer) -> Result<(), OutOfMemory>
    ensures { OnOk result (out.new.items ≡
        out.old.items ++ way_text archi.now transfer.medium transfer.from transfer.to) }
{
    append(out, b" over ")?;
    append(out, medium_name(archi, transfer.medium))?;
    append(out, b", ")?;
    append(out, operator_name(archi, transfer.from))?;
    append(out, b" to ")?;
    append(out, operator_name(archi, transfer.to))
}

/// The class of the bar of an operation, empty where there is none of this number.
fn class_of_run(flat: &Flat, op: u32) -> &'static [u8]
    ensures { result.now ≡ with_vertex (slice_get flat.now.vertices op) [] (λ x. class_of x.kind) }
{
    match flat.vertices().get(op as usize) {
        Some(vertex) => class_of(&vertex.kind),
        None => b"",
    }
}

/// The class of the bar of an operation of this kind.
fn class_of(kind: &Kind) -> &'static [u8]
    ensures { result.now ≡ class_of kind.now }
{
    match kind {
        Kind::Sensor(_) => b"sensor",
        Kind::Actuator(_) => b"actuator",
        Kind::Function(_) => b"function",
        Kind::Constant(_) => b"constant",
        Kind::Get(_) | Kind::Set => b"delay",
        Kind::Explode | Kind::Implode | Kind::Merge(_) => b"route",
    }
}
