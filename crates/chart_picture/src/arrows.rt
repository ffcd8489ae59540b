//! The arrows of a chart, from each transfer to whoever reads what it brings.
ghost use Rattle.std.specs.Prelude.{◌≡◌, ◌++◌, ◌+◌, ◌<◌, ◌^◌, ◌∷◌, [], OnOk, length, map, slice_get};
ghost use Rattle.std.specs.List.{flat_map, list_any};
ghost use Rattle.self_timed.specs.Acts.{acts_of, carry, copy, run, sources_of};
ghost use Rattle.chart_picture.specs.Arrows.{act_link, arrows_text, brings, edge_from, edge_to, link_text, links_from, links_to};

use crate::sheet::{Sheet, operators_in};
use self_timed::{Decision, Flat, Guard, Source, Transfer, Vertex};
use svg_text::{END_GROUP, Point, append_arrow, begin_group};
use syn_base::{OutOfMemory, append};

/// Appends all arrows of a schedule of these decisions.
pub fn append_arrows(
    out: &mut Vec<u8>,
    sheet: &Sheet,
    decisions: &[Decision],
) -> Result<(), OutOfMemory>
    ensures { OnOk result (out.new.items ≡ out.old.items ++ arrows_text sheet.now.flat.now.vertices
        (length sheet.now.archi.now.operators) sheet.now.scale (acts_of decisions.now)) }
{
    begin_group(out, b"arrows", b"", Point { x: 0, y: 0 })?;
    append_links(out, sheet, decisions)?;
    append(out, END_GROUP)
}

/// Appends the arrows from all transfers.
fn append_links(out: &mut Vec<u8>, sheet: &Sheet, decisions: &[Decision]) -> Result<(), OutOfMemory>
    ensures { OnOk result (out.new.items ≡ out.old.items ++ flat_map (links_from sheet.now.flat.now.vertices
        (length sheet.now.archi.now.operators) sheet.now.scale (acts_of decisions.now)) (acts_of decisions.now)) }
{
    for decision in decisions {
        append_links_from(out, sheet, decision.transfers.as_slice(), decisions)?;
    }
    Ok(())
}

/// Appends the arrows from these transfers.
fn append_links_from(
    out: &mut Vec<u8>,
    sheet: &Sheet,
    transfers: &[Transfer],
    readers: &[Decision],
) -> Result<(), OutOfMemory>
    ensures { OnOk result (out.new.items ≡ out.old.items ++ flat_map (links_from sheet.now.flat.now.vertices
        (length sheet.now.archi.now.operators) sheet.now.scale (acts_of readers.now)) (map carry transfers.now)) }
{
    for transfer in transfers {
        append_links_to(out, sheet, *transfer, readers)?;
    }
    Ok(())
}

/// Appends the arrows from a transfer to those of these decisions that read what it brings.
fn append_links_to(
    out: &mut Vec<u8>,
    sheet: &Sheet,
    transfer: Transfer,
    readers: &[Decision],
) -> Result<(), OutOfMemory>
    ensures { OnOk result (out.new.items ≡ out.old.items ++ links_to sheet.now.flat.now.vertices
        (length sheet.now.archi.now.operators) sheet.now.scale transfer (acts_of readers.now)) }
{
    for reader in readers {
        append_relays(out, sheet, transfer, reader.transfers.as_slice())?;
        append_reader(out, sheet, transfer, reader)?;
    }
    Ok(())
}

/// Appends the arrows from a transfer to those of these transfers that carry on what it brings.
fn append_relays(
    out: &mut Vec<u8>,
    sheet: &Sheet,
    transfer: Transfer,
    readers: &[Transfer],
) -> Result<(), OutOfMemory>
    ensures { OnOk result (out.new.items ≡ out.old.items ++ links_to sheet.now.flat.now.vertices
        (length sheet.now.archi.now.operators) sheet.now.scale transfer (map carry readers.now)) }
{
    for reader in readers {
        if carries_on(*reader, transfer) {
            append_relay(out, sheet, transfer, *reader)?;
        }
    }
    Ok(())
}

/// Appends the arrow from a transfer to one that carries on what it brings.
fn append_relay(
    out: &mut Vec<u8>,
    sheet: &Sheet,
    transfer: Transfer,
    reader: Transfer,
) -> Result<(), OutOfMemory>
    ensures { OnOk result (out.new.items ≡ out.old.items ++
        act_link sheet.now.flat.now.vertices
        (length sheet.now.archi.now.operators) sheet.now.scale (carry transfer) (carry reader)) }
{
    let lane = operators_in(sheet.archi) + reader.medium as u64;
    append_link(out, sheet, transfer, lane, reader.start)
}

/// Appends the arrow from a transfer to an operation, where that reads what it brings.
fn append_reader(
    out: &mut Vec<u8>,
    sheet: &Sheet,
    transfer: Transfer,
    reader: &Decision,
) -> Result<(), OutOfMemory>
    ensures { OnOk result (out.new.items ≡ out.old.items ++ links_to sheet.now.flat.now.vertices
        (length sheet.now.archi.now.operators) sheet.now.scale transfer (run reader.now ∷ [])) }
{
    if runs_on(sheet.flat, reader, transfer) {
        append_link(out, sheet, transfer, reader.operator as u64, reader.start)
    } else {
        Ok(())
    }
}

/// Appends an arrow from a transfer to a lane at a date.
#[tactic(auto, unfolding(crate::specs::Arrows::link_text))]
fn append_link(
    out: &mut Vec<u8>,
    sheet: &Sheet,
    transfer: Transfer,
    lane: u64,
    start: u64,
) -> Result<(), OutOfMemory>
    requires { lane < 2 ^ 40 }
    ensures { OnOk result (out.new.items ≡ out.old.items ++ link_text sheet.now.scale
        (length sheet.now.archi.now.operators + transfer.medium) transfer.end lane start) }
{
    let from = operators_in(sheet.archi) + transfer.medium as u64;
    let (leaves, arrives) = edges(from, lane);
    let tail = Point {
        x: sheet.scale.place(transfer.end),
        y: leaves,
    };
    let head = Point {
        x: sheet.scale.place(start),
        y: arrives,
    };
    append_arrow(out, tail, head)
}

/// Where an arrow between two lanes leaves the one, and where it reaches the other.
fn edges(from: u64, to: u64) -> (u64, u64)
    requires from { from < 2 ^ 40 }
    requires to { to < 2 ^ 40 }
    ensures from { result.0 ≡ edge_from from to }
    ensures to { result.1 ≡ edge_to from to }
{
    if to < from {
        (36 * from + 6, 36 * to + 30)
    } else {
        (36 * from + 30, 36 * to + 6)
    }
}

/// Whether a transfer carries on what another brings.
fn carries_on(reader: Transfer, transfer: Transfer) -> bool
    ensures { result ≡ brings transfer (copy reader.from reader.source) }
{
    is_brought(reader.from, reader.source, transfer)
}

/// Whether an operation runs where a transfer brings its value, and reads it.
fn runs_on(flat: &Flat, reader: &Decision, transfer: Transfer) -> bool
    ensures { result ≡ list_any (brings transfer)
        (map (copy reader.now.operator) (sources_of (slice_get flat.now.vertices reader.now.op))) }
{
    match flat.vertices().get(reader.op as usize) {
        Some(vertex) => takes(vertex, reader.operator, transfer),
        None => false,
    }
}

/// Whether an operation takes what a transfer brings, where it runs on this operator.
#[tactic(auto, using(crate::proofs::Reading::takes_both))]
fn takes(vertex: &Vertex, operator: u32, transfer: Transfer) -> bool
    ensures { result ≡ list_any (brings transfer) (map (copy operator) (sources_of (Some vertex.now))) }
{
    are_guarded(vertex.guards.as_slice(), operator, transfer)
        || are_fed(vertex.ins.as_slice(), operator, transfer)
}

/// Whether one of these guards asks for what a transfer brings.
fn are_guarded(guards: &[Guard], operator: u32, transfer: Transfer) -> bool
    ensures { result ≡ list_any (brings transfer) (map (copy operator) (map (λ d. d.source) guards.now)) }
{
    for guard in guards {
        if is_brought(operator, guard.source, transfer) {
            return true;
        }
    }
    false
}

/// Whether one of these inputs takes what a transfer brings.
fn are_fed(sources: &[Source], operator: u32, transfer: Transfer) -> bool
    ensures { result ≡ list_any (brings transfer) (map (copy operator) sources.now) }
{
    for source in sources {
        if is_brought(operator, *source, transfer) {
            return true;
        }
    }
    false
}

/// Whether a transfer brings the value of this source to this operator.
fn is_brought(operator: u32, source: Source, transfer: Transfer) -> bool
    ensures { result ≡ brings transfer (copy operator source) }
{
    operator == transfer.to
        && source.vertex == transfer.source.vertex
        && source.port == transfer.source.port
}
