//! The listing of all reactions, which `dates_text` returns.
ghost use Rattle.std.specs.Prelude.{◌≡◌, ◌++◌, IfOk, OnOk, length};
ghost use Rattle.self_timed.specs.Acts.{acts, acts_of};
ghost use Rattle.self_timed.specs.Told.{IsValidForSome};
ghost use Rattle.dates_text.specs.Listing.{dated_in, dated_text};
ghost use Rattle.dates_text.specs.Printed.{Appends, EachFits, HaveSpans, entry_span, dates_up_to};

use crate::line::Reaction;
use crate::reaction::append_reaction;
use self_timed::{Archi, Dates, Decision, Flat, Schedule};
use std::alloc::Global;
use syn_base::{OutOfMemory, append, append_count};

/// The text of the dates of a schedule: reaction by reaction and decision by decision, for each
/// transfer the line `K on MEDIUM START END OPERATION PORT FROM TO`, and then for the operation
/// `K op START END OPERATION`, where K is the number of the reaction and PORT that of the operation's
/// output; last `latest L`, where L is the greatest end, or 0. The dates have an entry for each operation
/// and each transfer.
pub fn text_of_dates(
    alloc: Global,
    flat: &Flat,
    archi: &Archi,
    schedule: &Schedule,
    dates: &Dates,
) -> Result<Vec<u8>, OutOfMemory>
    requires valid { IsValidForSome flat.now archi.now schedule.now }
    requires entries { HaveSpans flat.now schedule.now dates.now }
    ensures { IfOk result (λ text. text.items ≡ dated_text flat.now archi.now
        (dated_in (entry_span flat.now schedule.now dates.now) (length dates.now) (acts schedule.now))) }
{
    let mut text = Vec::new(alloc);
    append_dates(&mut text, flat, archi, schedule.decisions.as_slice(), dates)?;
    Ok(text)
}

/// Appends the lines of all reactions and the latest end. After want of memory part of them may
/// stand there.
fn append_dates(
    out: &mut Vec<u8>,
    flat: &Flat,
    archi: &Archi,
    decisions: &[Decision],
    dates: &Dates,
) -> Result<(), OutOfMemory>
    requires { EachFits flat.now decisions.now dates.now }
    ensures { OnOk result (out.new.items ≡ out.old.items ++ dated_text flat.now archi.now
        (dates_up_to dates.now (length flat.now.vertices) (acts_of decisions.now) (length dates.now))) }
{
    let latest = append_reactions(out, flat, archi, decisions, dates)?;
    append(out, b"latest ")?;
    append_count(out, latest as usize)?;
    append(out, b"\n")
}

/// Appends the lines of all reactions, and returns their latest end.
fn append_reactions(
    out: &mut Vec<u8>,
    flat: &Flat,
    archi: &Archi,
    decisions: &[Decision],
    dates: &Dates,
) -> Result<u64, OutOfMemory>
    requires { EachFits flat.now decisions.now dates.now }
    ensures { IfOk result (λ end. Appends flat.now archi.now out.old.items out.new.items end
        (dates_up_to dates.now (length flat.now.vertices) (acts_of decisions.now) (length dates.now))) }
{
    let mut latest = 0;
    for number in 0..dates.reactions() {
        let reaction = Reaction {
            flat,
            archi,
            dates,
            number,
        };
        latest = append_reaction(out, &reaction, decisions)?.max(latest);
    }
    Ok(latest)
}
