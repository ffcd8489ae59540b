//! The lines of a report on many reactions.
ghost use Rattle.std.specs.Prelude.{◌≡◌, ◌++◌, ◌∷◌, [], OnOk, map};
ghost use Rattle.timing_chart.specs.Chart.{line_text, text_of};
ghost use Rattle.report_text.specs.Text.{
  busiest_line,
  latency_line,
  line_name,
  line_word,
  medium_name,
  period_line,
  period_lines,
};
ghost use Rattle.self_timed.specs.Archi.{operator_name};

use crate::figures::Figures;
use crate::line::{append_end, append_period_word, append_share, name_of};
use lower_bound::{Busiest, Line};
use self_timed::{Archi, Latency, Medium, Period, Vertex};
use syn_base::{Name, OutOfMemory, append};

/// Appends the period, the operator or medium that is busiest in it, and the latency from each sensor to
/// each actuator that depends on it.
pub fn append_many(
    out: &mut Vec<u8>,
    vertices: &[Vertex],
    archi: &Archi,
    figures: &Figures,
) -> Result<(), OutOfMemory>
    ensures { OnOk result (out.new.items ≡ out.old.items ++
        text_of (period_lines vertices.now archi.now figures.now)) }
{
    append_period(out, figures.period)?;
    append_busiest(out, archi, figures.busiest)?;
    append_latencies(out, vertices, figures.latencies.as_slice())
}

/// Appends the line of a period.
fn append_period(out: &mut Vec<u8>, period: Period) -> Result<(), OutOfMemory>
    ensures { OnOk result (out.new.items ≡ out.old.items ++ line_text (period_line period)) }
{
    append(out, b"period ")?;
    append_period_word(out, period)?;
    append(out, b" reactions")?;
    append_end(out, period.reactions)
}

/// Appends the line of the operator or medium that is busiest.
fn append_busiest(out: &mut Vec<u8>, archi: &Archi, busiest: Busiest) -> Result<(), OutOfMemory>
    ensures { OnOk result (out.new.items ≡ out.old.items ++ line_text (busiest_line archi.now busiest)) }
{
    let name = line_name(archi, busiest.line);
    append_share(out, line_word(busiest.line), name, busiest.share)
}

/// What an operator or a medium is called before its name.
fn line_word(line: Line) -> &'static [u8]
    ensures { result.now ≡ line_word line }
{
    match line {
        Line::Operator(_) => b"operator",
        Line::Medium(_) => b"medium",
    }
}

/// The name of an operator or a medium.
fn line_name(archi: &Archi, line: Line) -> &[u8]
    ensures { result.now ≡ line_name archi.now line }
{
    match line {
        Line::Operator(operator) => operator_name(archi.operators(), operator),
        Line::Medium(medium) => medium_name(archi.media(), medium),
    }
}

/// The name of an operator, empty where there is none of this number.
fn operator_name(operators: &[Name], operator: u32) -> &[u8]
    ensures { result.now ≡ operator_name operators.now operator }
{
    let operator = operator as usize;
    if operator < operators.len() {
        operators[operator].as_bytes()
    } else {
        b""
    }
}

/// The name of a medium, empty where there is none of this number.
fn medium_name(media: &[Medium], medium: u32) -> &[u8]
    ensures { result.now ≡ medium_name media.now medium }
{
    match media.get(medium as usize) {
        Some(medium) => medium.name.as_bytes(),
        None => b"",
    }
}

/// Appends the lines of latencies.
fn append_latencies(
    out: &mut Vec<u8>,
    vertices: &[Vertex],
    latencies: &[Latency],
) -> Result<(), OutOfMemory>
    ensures { OnOk result (out.new.items ≡ out.old.items ++
        text_of (map (latency_line vertices.now) latencies.now)) }
{
    for latency in latencies {
        append_latency(out, vertices, *latency)?;
    }
    Ok(())
}

/// Appends the line of a latency.
fn append_latency(
    out: &mut Vec<u8>,
    vertices: &[Vertex],
    latency: Latency,
) -> Result<(), OutOfMemory>
    ensures { OnOk result (out.new.items ≡ out.old.items ++ line_text (latency_line vertices.now latency)) }
{
    append(out, b"latency ")?;
    append(out, name_of(vertices, latency.sensor))?;
    append(out, b" ")?;
    append(out, name_of(vertices, latency.actuator))?;
    append_end(out, latency.ticks)
}
