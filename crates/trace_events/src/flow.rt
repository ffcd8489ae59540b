//! How carried values leave and arrive. `act` calls it.
ghost use Rattle.std.specs.Prelude.{◌≡◌, ◌++◌, OnOk, map};
ghost use Rattle.std.specs.List.{list_any};
ghost use Rattle.trace_events.specs.Events.{arrives_text, leaves_text, number_text, rest_of_flow, text_of};
ghost use Rattle.trace_events.specs.Printed.{arrived};
ghost use Rattle.trace_events.specs.Trace.{arrival, is_brought};
ghost use Rattle.self_timed.specs.Acts.{brings};

use crate::event::{Reader, append_place};
use crate::word::{Word, append_word};
use self_timed::{Decision, Guard, Source, Transfer};
use syn_base::{OutOfMemory, append_count};

/// Appends that the value leaves here.
pub fn append_departure(
    out: &mut Vec<u8>,
    source: Source,
    reader: Reader,
) -> Result<(), OutOfMemory>
    ensures { OnOk result (out.new.items ≡ out.old.items ++ leaves_text source reader) }
{
    append_word(out, Word::Leaves)?;
    append_flow_rest(out, source, reader)
}

/// Appends for each of these guards that the value of its source arrives here, where a transfer has
/// brought it.
pub fn append_guard_arrivals(
    out: &mut Vec<u8>,
    decisions: &[Decision],
    reader: Reader,
    guards: &[Guard],
) -> Result<(), OutOfMemory>
    ensures { OnOk result (out.new.items ≡ out.old.items ++
        arrived decisions.now reader (map (λ g. g.source) guards.now)) }
{
    for guard in guards {
        append_arrival(out, decisions, reader, guard.source)?;
    }
    Ok(())
}

/// Appends for each of these sources that its value arrives here, where a transfer has brought it.
pub fn append_arrivals(
    out: &mut Vec<u8>,
    decisions: &[Decision],
    reader: Reader,
    sources: &[Source],
) -> Result<(), OutOfMemory>
    ensures { OnOk result (out.new.items ≡ out.old.items ++
        arrived decisions.now reader sources.now) }
{
    for source in sources {
        append_arrival(out, decisions, reader, *source)?;
    }
    Ok(())
}

/// Appends that the value arrives here, where a transfer has brought it.
#[tactic(auto, using(crate::proofs::Texts::arrival_there, crate::proofs::Texts::arrival_absent))]
pub fn append_arrival(
    out: &mut Vec<u8>,
    decisions: &[Decision],
    reader: Reader,
    source: Source,
) -> Result<(), OutOfMemory>
    ensures { OnOk result (out.new.items ≡ out.old.items ++
        text_of (arrival decisions.now reader source)) }
{
    if is_brought(decisions, reader.operator, source) {
        append_arrives(out, source, reader)
    } else {
        Ok(())
    }
}

/// Appends that the value arrives here.
fn append_arrives(out: &mut Vec<u8>, source: Source, reader: Reader) -> Result<(), OutOfMemory>
    ensures { OnOk result (out.new.items ≡ out.old.items ++ arrives_text source reader) }
{
    append_word(out, Word::Arrives)?;
    append_flow_rest(out, source, reader)
}

/// Appends the number of the flow, and where and when it is.
#[tactic(auto, unfolding(crate::specs::Events::rest_of_flow))]
fn append_flow_rest(out: &mut Vec<u8>, source: Source, reader: Reader) -> Result<(), OutOfMemory>
    ensures { OnOk result (out.new.items ≡ out.old.items ++ rest_of_flow source reader) }
{
    append_word(out, Word::Number)?;
    append_number(out, source, reader)?;
    append_word(out, Word::Date)?;
    append_count(out, reader.date as usize)?;
    append_place(out, reader.lane)?;
    append_word(out, Word::FlowEnd)
}

/// Appends the number of the value on the operator in the reaction.
#[tactic(auto, unfolding(crate::specs::Events::number_text))]
fn append_number(out: &mut Vec<u8>, source: Source, reader: Reader) -> Result<(), OutOfMemory>
    ensures { OnOk result (out.new.items ≡ out.old.items ++ number_text source reader) }
{
    append_count(out, reader.reaction)?;
    append_word(out, Word::Between)?;
    append_count(out, source.vertex as usize)?;
    append_word(out, Word::Between)?;
    append_count(out, source.port as usize)?;
    append_word(out, Word::Between)?;
    append_count(out, reader.operator as usize)
}

/// Whether a transfer brings the value of the source to the operator.
fn is_brought(decisions: &[Decision], operator: u32, source: Source) -> bool
    ensures { result ≡ is_brought decisions.now operator source }
{
    decisions.iter().any(|decision| is_among(decision.transfers.as_slice(), operator, source))
}

/// Whether one of these transfers brings the value of the source to the operator.
fn is_among(transfers: &[Transfer], operator: u32, source: Source) -> bool
    ensures { result ≡ list_any (brings operator source) transfers.now }
{
    transfers.iter().any(|transfer| {
        transfer.to == operator
            && transfer.source.vertex == source.vertex
            && transfer.source.port == source.port
    })
}
