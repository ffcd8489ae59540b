//! The chart as a whole, printed for the command `chart`.
ghost use Rattle.std.specs.Prelude.{◌≡◌, ◌++◌, OnErr, OnOk, map};
ghost use Rattle.std.specs.List.{filter};
ghost use Rattle.schedule.specs.Acts.{acts_of, carry, is_on, is_over};
ghost use Rattle.timing_chart.specs.Chart.{act_line, chart, medium_parts, operator_parts, text_of};

use crate::line::{Named, append_head, append_operation, append_transfer};
use schedule::{Archi, Decision, Flat, Medium, Schedule, Transfer};
use std::alloc::Global;
use syn_base::{OutOfMemory, append, append_count};

/// Appends the chart of a schedule: for each operator `operator NAME`, and then a line `START END
/// OPERATION` for each operation that runs on it; for each medium `medium NAME`, and then a line
/// `START END OPERATION PORT FROM TO` for each transfer over it, where PORT is the number of the
/// operation's output; each in order of the decisions; last `length L`, where L is the latest end.
/// What the schedule names and is not there has an empty name. After want of memory `out` is as
/// before.
pub fn print_chart(
    alloc: Global,
    flat: &Flat,
    archi: &Archi,
    schedule: &Schedule,
    out: &mut Vec<u8>,
) -> Result<(), OutOfMemory>
    ensures text { OnOk result (out.new.items ≡ out.old.items ++ chart flat.now archi.now schedule.now) }
    ensures err { OnErr result (out.new.items ≡ out.old.items) }
{
    let mut text = Vec::new(alloc);
    append_chart(&mut text, flat, archi, schedule)?;
    out.extend_from_slice(&text)?;
    Ok(())
}

/// Appends the whole chart. After want of memory part of it may stand there.
fn append_chart(
    out: &mut Vec<u8>,
    flat: &Flat,
    archi: &Archi,
    schedule: &Schedule,
) -> Result<(), OutOfMemory>
    ensures { OnOk result (out.new.items ≡ out.old.items ++ chart flat.now archi.now schedule.now) }
{
    let named = Named {
        vertices: flat.vertices(),
        operators: archi.operators(),
    };
    let decisions = schedule.decisions.as_slice();
    append_operators(out, &named, decisions)?;
    append_media(out, &named, archi.media(), decisions)?;
    append(out, b"length ")?;
    append_count(out, schedule.length() as usize)?;
    append(out, b"\n")
}

/// Appends the parts of all operators: a head, and the lines of its operations.
fn append_operators(
    out: &mut Vec<u8>,
    named: &Named,
    decisions: &[Decision],
) -> Result<(), OutOfMemory>
    ensures { OnOk result (out.new.items ≡ out.old.items ++
        text_of (operator_parts named.now.vertices.now named.now.operators.now
        (acts_of decisions.now) 0 named.now.operators.now)) }
{
    for (operator, name) in named.operators.iter().enumerate() {
        append_head(out, b"operator", name.as_bytes())?;
        append_on(out, named, operator, decisions)?;
    }
    Ok(())
}

/// Appends the parts of all media: a head, and the lines of its transfers.
fn append_media(
    out: &mut Vec<u8>,
    named: &Named,
    media: &[Medium],
    decisions: &[Decision],
) -> Result<(), OutOfMemory>
    ensures { OnOk result (out.new.items ≡ out.old.items ++
        text_of (medium_parts named.now.vertices.now named.now.operators.now
        (acts_of decisions.now) 0 media.now)) }
{
    for (number, medium) in media.iter().enumerate() {
        append_head(out, b"medium", medium.name.as_bytes())?;
        append_over(out, named, number, decisions)?;
    }
    Ok(())
}

/// Appends the lines of the operations on an operator.
fn append_on(
    out: &mut Vec<u8>,
    named: &Named,
    operator: usize,
    decisions: &[Decision],
) -> Result<(), OutOfMemory>
    ensures { OnOk result (out.new.items ≡ out.old.items ++
        text_of (map (act_line named.now.vertices.now named.now.operators.now)
        (filter (is_on operator) (acts_of decisions.now)))) }
{
    for decision in decisions {
        if decision.operator as usize == operator {
            append_operation(out, named, decision)?;
        }
    }
    Ok(())
}

/// Appends the lines of the transfers over a medium.
fn append_over(
    out: &mut Vec<u8>,
    named: &Named,
    medium: usize,
    decisions: &[Decision],
) -> Result<(), OutOfMemory>
    ensures { OnOk result (out.new.items ≡ out.old.items ++
        text_of (map (act_line named.now.vertices.now named.now.operators.now)
        (filter (is_over medium) (acts_of decisions.now)))) }
{
    for decision in decisions {
        append_transfers(out, named, medium, decision.transfers.as_slice())?;
    }
    Ok(())
}

/// Appends the lines of those of these transfers that go over the medium.
fn append_transfers(
    out: &mut Vec<u8>,
    named: &Named,
    medium: usize,
    transfers: &[Transfer],
) -> Result<(), OutOfMemory>
    ensures { OnOk result (out.new.items ≡ out.old.items ++
        text_of (map (act_line named.now.vertices.now named.now.operators.now)
        (filter (is_over medium) (map carry transfers.now)))) }
{
    for transfer in transfers {
        if transfer.medium as usize == medium {
            append_transfer(out, named, *transfer)?;
        }
    }
    Ok(())
}
