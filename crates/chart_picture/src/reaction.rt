//! The part of a picture that shows one reaction.
ghost use Rattle.std.specs.Prelude.{◌+◌, ◌*◌, ◌++◌, ◌∷◌, [], ◌≡◌, ◌≤◌, ◌<◌, ◌^◌, OnOk, length, map};
ghost use Rattle.self_timed.specs.Acts.{acts_of, carry, run};
ghost use Rattle.self_timed.specs.Told.{reaction_at, span_at};
ghost use Rattle.dates_text.specs.Listing.{dated};
ghost use Rattle.dates_text.specs.Printed.{Fit, dated_by};
ghost use Rattle.svg_text.specs.Scale.{place};
ghost use Rattle.svg_text.specs.Shapes.{tile_text};
ghost use Rattle.chart_picture.specs.DatesPicture.{dated_text, number_text, tiles_text};
ghost use Rattle.chart_picture.specs.Printed.{drawn_reaction};

use crate::bars::{append_title_of_run, append_title_of_transfer};
use crate::sheet::{Sheet, operators_in};
use self_timed::{Dates, Decision, Span, Transfer};
use svg_text::{END_GROUP, begin_shade, begin_tile, end_bar};
use syn_base::{OutOfMemory, append, append_count};

/// A reaction that is drawn, by its number, and all dates.
#[derive(Clone, Copy)]
pub struct Reaction<'a, 's> {
    pub sheet: &'a Sheet<'s>,
    pub dates: &'a Dates,
    pub number: usize,
}

/// Appends a reaction: a bar for each operation and each transfer, decision by decision.
pub fn append_reaction(
    out: &mut Vec<u8>,
    reaction: &Reaction,
    decisions: &[Decision],
) -> Result<(), OutOfMemory>
    requires there { reaction.now.number < length reaction.now.dates.now }
    requires fit { Fit (length (reaction_at reaction.now.dates.now reaction.now.number))
        (length reaction.now.sheet.now.flat.now.vertices) decisions.now }
    ensures { OnOk result (out.new.items ≡ out.old.items ++ drawn_reaction reaction.now.sheet.now.flat.now
        reaction.now.sheet.now.archi.now reaction.now.sheet.now.scale reaction.now.dates.now
        (acts_of decisions.now) reaction.now.number) }
{
    begin_shade(out, b"reaction-", reaction.number)?;
    append_decisions(out, reaction, decisions)?;
    append(out, END_GROUP)
}

/// Appends the bars of these decisions.
fn append_decisions(
    out: &mut Vec<u8>,
    reaction: &Reaction,
    decisions: &[Decision],
) -> Result<(), OutOfMemory>
    requires there { reaction.now.number < length reaction.now.dates.now }
    requires fit { Fit (length (reaction_at reaction.now.dates.now reaction.now.number))
        (length reaction.now.sheet.now.flat.now.vertices) decisions.now }
    ensures { OnOk result (out.new.items ≡ out.old.items ++ tiles_text reaction.now.sheet.now.flat.now
        reaction.now.sheet.now.archi.now reaction.now.sheet.now.scale
        (dated_by reaction.now.number (reaction_at reaction.now.dates.now reaction.now.number)
        (length reaction.now.sheet.now.flat.now.vertices) (acts_of decisions.now))) }
{
    // The proof takes from this call that the number of entries has 64 bits, which bounds the sums.
    let _entries = reaction.dates.entries(reaction.number);
    let mut next = reaction.sheet.flat.vertices().len();
    for decision in decisions {
        append_decision(out, reaction, decision, next)?;
        next += decision.transfers.as_slice().len();
    }
    Ok(())
}

/// Appends the bars of a decision's transfers, of which the first has the entry `next`, and then of its
/// operation.
fn append_decision(
    out: &mut Vec<u8>,
    reaction: &Reaction,
    decision: &Decision,
    next: usize,
) -> Result<(), OutOfMemory>
    requires there { reaction.now.number < length reaction.now.dates.now }
    requires fit { Fit (length (reaction_at reaction.now.dates.now reaction.now.number)) next (decision.now ∷ []) }
    ensures { OnOk result (out.new.items ≡ out.old.items ++ tiles_text reaction.now.sheet.now.flat.now
        reaction.now.sheet.now.archi.now reaction.now.sheet.now.scale
        (dated_by reaction.now.number (reaction_at reaction.now.dates.now reaction.now.number)
        next (map carry decision.now.transfers ++ run decision.now ∷ []))) }
{
    append_transfers(out, reaction, decision.transfers.as_slice(), next)?;
    let span = span_of(reaction, decision.op as usize);
    append_run(out, reaction, span, decision)
}

/// Appends the bars of transfers, of which the first has the entry `first`.
fn append_transfers(
    out: &mut Vec<u8>,
    reaction: &Reaction,
    transfers: &[Transfer],
    first: usize,
) -> Result<(), OutOfMemory>
    requires there { reaction.now.number < length reaction.now.dates.now }
    requires fit { first + length transfers.now ≤ length (reaction_at reaction.now.dates.now reaction.now.number) }
    ensures { OnOk result (out.new.items ≡ out.old.items ++ tiles_text reaction.now.sheet.now.flat.now
        reaction.now.sheet.now.archi.now reaction.now.sheet.now.scale
        (dated_by reaction.now.number (reaction_at reaction.now.dates.now reaction.now.number)
        first (map carry transfers.now))) }
{
    // The proof takes from this call that the number of entries has 64 bits, which bounds the sum.
    let _entries = reaction.dates.entries(reaction.number);
    for (place, transfer) in transfers.iter().enumerate() {
        let entry = first + place;
        let span = span_of(reaction, entry);
        append_carry(out, reaction, span, *transfer)?;
    }
    Ok(())
}

/// Appends the bar of an operation that takes this span.
fn append_run(
    out: &mut Vec<u8>,
    reaction: &Reaction,
    span: Span,
    decision: &Decision,
) -> Result<(), OutOfMemory>
    ensures { OnOk result (out.new.items ≡ out.old.items ++ dated_text reaction.now.sheet.now.flat.now
        reaction.now.sheet.now.archi.now reaction.now.sheet.now.scale
        (dated reaction.now.number span (run decision.now))) }
{
    begin_bar(out, reaction, span, decision.operator as u64)?;
    append_title_of_run(out, reaction.sheet, span.start, span.end, decision)?;
    end_bar(out)
}

/// Appends the bar of a transfer that takes this span.
fn append_carry(
    out: &mut Vec<u8>,
    reaction: &Reaction,
    span: Span,
    transfer: Transfer,
) -> Result<(), OutOfMemory>
    ensures { OnOk result (out.new.items ≡ out.old.items ++ dated_text reaction.now.sheet.now.flat.now
        reaction.now.sheet.now.archi.now reaction.now.sheet.now.scale
        (dated reaction.now.number span (carry transfer))) }
{
    let lane = operators_in(reaction.sheet.archi) + transfer.medium as u64;
    begin_bar(out, reaction, span, lane)?;
    append_title_of_transfer(out, reaction.sheet, span.start, span.end, transfer)?;
    end_bar(out)
}

/// Begins a bar in a lane: its sides, and the number of its reaction.
fn begin_bar(
    out: &mut Vec<u8>,
    reaction: &Reaction,
    span: Span,
    lane: u64,
) -> Result<(), OutOfMemory>
    requires { lane < 2 ^ 33 }
    ensures { OnOk result (out.new.items ≡ out.old.items ++
        (tile_text (place reaction.now.sheet.now.scale span.start) (place reaction.now.sheet.now.scale span.end)
        (36 * lane + 6) ++ number_text reaction.now.number)) }
{
    let scale = reaction.sheet.scale;
    let top = 36 * lane + 6;
    begin_tile(out, scale.place(span.start), scale.place(span.end), top)?;
    append(out, b"reaction ")?;
    append_count(out, reaction.number)?;
    append(out, b", ")
}

/// When an entry starts and ends.
fn span_of(reaction: &Reaction, entry: usize) -> Span
    requires there { reaction.now.number < length reaction.now.dates.now }
    requires entry { entry < length (reaction_at reaction.now.dates.now reaction.now.number) }
    ensures { result ≡ span_at reaction.now.dates.now reaction.now.number entry }
{
    Span {
        start: reaction.dates.start(reaction.number, entry),
        end: reaction.dates.end(reaction.number, entry),
    }
}
