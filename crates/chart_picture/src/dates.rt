//! The picture of the dates under given ticks, drawn for the command `dates`.
ghost use Rattle.std.specs.Prelude.{◌≡◌, ◌≤◌, ◌++◌, IfOk, OnOk, length};
ghost use Rattle.self_timed.specs.Acts.{acts, acts_of};
ghost use Rattle.self_timed.specs.Built.{program_of};
ghost use Rattle.self_timed.specs.Entries.{AreWithin};
ghost use Rattle.self_timed.specs.Told.{HaveEntries, IsValidForSome, entries_of};
ghost use Rattle.dates_text.specs.Printed.{EachFits, HaveSpans, entry_span};
ghost use Rattle.chart_picture.specs.DatesPicture.{dated_picture, dates_picture, scale_for};
ghost use Rattle.chart_picture.specs.Printed.{drawn_picture, drawn_up_to};

use crate::board::{append_board, append_note, repeated};
use crate::picture::{begin_picture, end_picture};
use crate::reaction::{Reaction, append_reaction};
use crate::sheet::Sheet;
use self_timed::{Actual, Archi, Dates, Decision, Flat, Program, Schedule, dates_of};
use std::alloc::Global;
use svg_text::{Scale, widened};
use syn_base::OutOfMemory;

/// The dates of a schedule whose reactions last these ticks, as a picture in SVG: a lane for
/// each operator and each medium, a group for each reaction with a bar for each operation and each
/// transfer, and a dashed line where each repetition of the chart would end. As many charts as there
/// are reactions take the whole width, so what stays free at its end is what the reactions gain by not
/// waiting for each other. The schedule is valid for some durations, `program` is its program, and no
/// entry lasts longer than stated.
pub fn dates_picture(
    alloc: Global,
    flat: &Flat,
    archi: &Archi,
    schedule: &Schedule,
    program: &Program,
    actual: &Actual,
) -> Result<Vec<u8>, OutOfMemory>
    requires valid { IsValidForSome flat.now archi.now schedule.now }
    requires program { program.now ≡ program_of flat.now archi.now schedule.now }
    requires few { length actual.now ≤ 1000 }
    requires entries { HaveEntries (entries_of flat.now schedule.now) actual.now }
    requires within { AreWithin flat.now.vertices (acts schedule.now) actual.now }
    ensures { IfOk result (λ text. text.items ≡ dates_picture flat.now archi.now schedule.now actual.now) }
{
    let dates = dates_of(alloc, flat, archi, schedule, program, actual)?;
    picture_of(alloc, flat, archi, schedule, &dates)
}

/// The picture of these dates, which have an entry for each operation and each transfer.
fn picture_of(
    alloc: Global,
    flat: &Flat,
    archi: &Archi,
    schedule: &Schedule,
    dates: &Dates,
) -> Result<Vec<u8>, OutOfMemory>
    requires valid { IsValidForSome flat.now archi.now schedule.now }
    requires entries { HaveSpans flat.now schedule.now dates.now }
    ensures { IfOk result (λ text. text.items ≡ dated_picture flat.now archi.now schedule.now
        (entry_span flat.now schedule.now dates.now) (length dates.now)) }
{
    let ticks = schedule.length();
    let scale = scale_for(flat, dates, ticks);
    let sheet = Sheet { flat, archi, scale };
    let mut text = Vec::new(alloc);
    append_picture(
        &mut text,
        &sheet,
        dates,
        ticks,
        schedule.decisions.as_slice(),
    )?;
    Ok(text)
}

/// The scale on which as many charts of these ticks as there are reactions take the whole width.
fn scale_for(flat: &Flat, dates: &Dates, ticks: u64) -> Scale
    ensures scale { result ≡ scale_for flat.now (length dates.now) ticks }
    ensures narrow { result.width ≤ 513000 }
{
    let reactions = dates.reactions();
    Scale {
        width: widened(reactions.saturating_mul(flat.vertices().len())),
        length: repeated(reactions, ticks),
    }
}

/// Appends the whole picture, where the chart of these decisions has these ticks.
#[tactic(auto, unfolding(crate::specs::Printed::drawn_picture))]
fn append_picture(
    out: &mut Vec<u8>,
    sheet: &Sheet,
    dates: &Dates,
    ticks: u64,
    decisions: &[Decision],
) -> Result<(), OutOfMemory>
    requires narrow { sheet.now.scale.width ≤ 513000 }
    requires fit { EachFits sheet.now.flat.now decisions.now dates.now }
    ensures { OnOk result (out.new.items ≡ out.old.items ++ drawn_picture sheet.now.flat.now
        sheet.now.archi.now sheet.now.scale ticks dates.now (acts_of decisions.now)) }
{
    begin_picture(out, sheet.archi, sheet.scale)?;
    append_board(out, sheet.archi, sheet.scale, ticks, dates.reactions())?;
    append_reactions(out, sheet, dates, decisions)?;
    append_note(out, sheet.archi, ticks)?;
    end_picture(out)
}

/// Appends all reactions.
fn append_reactions(
    out: &mut Vec<u8>,
    sheet: &Sheet,
    dates: &Dates,
    decisions: &[Decision],
) -> Result<(), OutOfMemory>
    requires { EachFits sheet.now.flat.now decisions.now dates.now }
    ensures { OnOk result (out.new.items ≡ out.old.items ++ drawn_up_to sheet.now.flat.now sheet.now.archi.now
        sheet.now.scale dates.now (acts_of decisions.now) (length dates.now)) }
{
    for number in 0..dates.reactions() {
        let reaction = Reaction {
            sheet,
            dates,
            number,
        };
        append_reaction(out, &reaction, decisions)?;
    }
    Ok(())
}
