//! The lines of a report on one reaction.
ghost use Rattle.std.specs.Prelude.{◌≡◌, ◌++◌, ◌∷◌, [], OnOk, codes, map};
ghost use Rattle.timing_chart.specs.Chart.{text_of};
ghost use Rattle.report_text.specs.Text.{alone_lines, load_lines, reaction_lines};

use crate::line::{append_alone, append_load, append_number, append_transfers};
use lower_bound::{Alone, Load, Report, Transfers};
use self_timed::{Archi, Medium};
use syn_base::{Name, OutOfMemory};

/// Appends the length, how busy each operator and each medium is, the transfers, and the time of each
/// operator alone, where all operations may stand there.
pub fn append_reaction(
    out: &mut Vec<u8>,
    archi: &Archi,
    report: &Report,
    transfers: Transfers,
) -> Result<(), OutOfMemory>
    ensures { OnOk result (out.new.items ≡ out.old.items ++
        text_of (reaction_lines archi.now report.now transfers)) }
{
    let operators = archi.operators();
    let media = archi.media();
    append_number(out, b"length", report.length)?;
    append_operators(out, operators, report.operators.as_slice())?;
    append_media(out, media, report.media.as_slice())?;
    append_transfers(out, transfers)?;
    append_alone_lines(out, operators, report.alone.as_slice())
}

/// Appends the lines of operators.
fn append_operators(
    out: &mut Vec<u8>,
    operators: &[Name],
    loads: &[Load],
) -> Result<(), OutOfMemory>
    ensures { OnOk result (out.new.items ≡ out.old.items ++
        text_of (load_lines (codes "operator") operators.now loads.now)) }
{
    for (number, name) in operators.iter().enumerate() {
        if number < loads.len() {
            append_load(out, b"operator", name.as_bytes(), loads[number])?;
        }
    }
    Ok(())
}

/// Appends the lines of media.
fn append_media(out: &mut Vec<u8>, media: &[Medium], loads: &[Load]) -> Result<(), OutOfMemory>
    ensures { OnOk result (out.new.items ≡ out.old.items ++
        text_of (load_lines (codes "medium") (map (λ m. m.name) media.now) loads.now)) }
{
    for (number, medium) in media.iter().enumerate() {
        if number < loads.len() {
            append_load(out, b"medium", medium.name.as_bytes(), loads[number])?;
        }
    }
    Ok(())
}

/// Appends the lines of operators alone.
fn append_alone_lines(
    out: &mut Vec<u8>,
    operators: &[Name],
    list: &[Option<Alone>],
) -> Result<(), OutOfMemory>
    ensures { OnOk result (out.new.items ≡ out.old.items ++
        text_of (alone_lines operators.now list.now)) }
{
    for (number, name) in operators.iter().enumerate() {
        if number < list.len() {
            append_if_alone(out, name.as_bytes(), list[number])?;
        }
    }
    Ok(())
}

/// Appends the line of an operator alone, where all operations may stand there.
fn append_if_alone(out: &mut Vec<u8>, name: &[u8], alone: Option<Alone>) -> Result<(), OutOfMemory>
    ensures { OnOk result (out.new.items ≡ out.old.items ++
        text_of (alone_lines (name.now ∷ []) (alone ∷ []))) }
{
    match alone {
        Some(alone) => append_alone(out, name, alone),
        None => Ok(()),
    }
}
