//! The reading of a text of actual durations: `actual_of`, which the command `dates` calls.
ghost use Rattle.std.specs.Prelude.{◌≤◌, IsTrue, length};
ghost use Rattle.syn_base.specs.Limits.{most_in_text};
ghost use Rattle.text_lines.specs.Text.{lines_of};
ghost use Rattle.schedule.specs.Text.{described_by};
ghost use Rattle.schedule.specs.DurationLines.{AreDurations};
ghost use Rattle.schedule.specs.Table.{entry_in};
ghost use Rattle.schedule.specs.Valid.{is_valid};
ghost use Rattle.actual_durations.specs.Actual.{actual_by, actual_of, same_architecture};
ghost use Rattle.actual_durations.specs.Answers.{Gives};

use crate::operators::operators_of;
use crate::same::same_architecture;
use crate::ticks::{append_operations, append_transfers};
use crate::walk::{check_media, check_operations};
use actual_defs::{ActualError, ActualFault};
use archi_reader::read_archi;
use schedule::{Archi, ArchiText, Durations, Flat, Given, Schedule, accepted_are_durations};
use std::alloc::Global;

/// How long each operation of a schedule, by number, and then each of its transfers, in the order of the
/// decisions, really lasts by a text, in ticks; or why the text is refused. It is refused as the text of an
/// architecture with its first refusal, or its limit; with Differs where its operators, media, kinds,
/// connections or depth are not those of `archi`; with Longer or Missing where a number is above the stated one
/// or is missing: first of all media, and then of all operations. Constants, and what flattening makes, last 0
/// ticks. The schedule is valid for the stated durations. What is asked of a text is found by hash, so the
/// time is in proportion to the text, the operations and the transfers.
pub fn actual_of(
    alloc: Global,
    flat: &Flat,
    archi: &Archi,
    stated: &Durations,
    schedule: &Schedule,
    text: &[u8],
) -> Result<Vec<u64>, ActualError>
    requires short { length (lines_of text.now) ≤ most_in_text }
    requires valid { IsTrue (is_valid flat.now archi.now (entry_in stated.now) schedule.now) }
    ensures { Gives result (actual_of flat.now archi.now stated.now schedule.now text.now) }
{
    let text = read_archi(alloc, text)?;
    // The law says of every accepted text what `actual_by` asks of its durations.
    accepted_are_durations();
    if !same_architecture(archi, &text.archi) {
        return Err(ActualError::Refused(ActualFault::Differs));
    }
    actual_by(alloc, flat, archi, stated, schedule, &text)
}

/// The same of what a text with the same operators, media and depth describes.
fn actual_by(
    alloc: Global,
    flat: &Flat,
    archi: &Archi,
    stated: &Durations,
    schedule: &Schedule,
    text: &ArchiText,
) -> Result<Vec<u64>, ActualError>
    requires same { IsTrue (same_architecture archi.now text.now.archi) }
    requires lines { AreDurations (length text.now.archi.operators) text.now.lines }
    requires valid { IsTrue (is_valid flat.now archi.now (entry_in stated.now) schedule.now) }
    ensures { Gives result (actual_by flat.now archi.now stated.now schedule.now (described_by text.now)) }
{
    check_media(alloc, archi.media(), text.archi.media())?;
    let decisions = schedule.decisions.as_slice();
    let operators = operators_of(alloc, flat.vertices().len(), decisions)?;
    let count = archi.operators().len() as u32;
    let actual = Given::new(alloc, count, text.lines.as_slice())?;
    check_operations(alloc, stated, &actual, flat.vertices(), &operators)?;
    let mut ticks = Vec::new(alloc);
    append_operations(&mut ticks, &actual, flat.vertices(), &operators)?;
    append_transfers(&mut ticks, flat.vertices(), text.archi.media(), decisions)?;
    Ok(ticks)
}
