//! The architecture of every load.
ghost use Rattle.std.specs.Prelude.{◌≡◌, ◌++◌, IfOk, OnOk};
ghost use Rattle.load_texts.specs.Lines.{lines_text};
ghost use Rattle.load_texts.specs.Architecture.{
  architecture_text,
  duration_line,
  durations_everywhere,
  end_durations,
  graph_lines,
  short_durations,
};

use crate::lines::append_lines;
use std::alloc::Global;
use syn_base::{OutOfMemory, append};

/// The text of the architecture: four operators on two media, and the durations.
pub fn architecture(alloc: Global) -> Result<Vec<u8>, OutOfMemory>
    ensures { IfOk result (λ text. text.items ≡ architecture_text) }
{
    let mut text = Vec::new(alloc);
    append_graph(&mut text)?;
    append_end_durations(&mut text)?;
    append_everywhere(&mut text, b"Mix", b"10")?;
    append_short_durations(&mut text)?;
    Ok(text)
}

/// Appends the operators, the media and the connections.
fn append_graph(out: &mut Vec<u8>) -> Result<(), OutOfMemory>
    ensures { OnOk result (out.new.items ≡ out.old.items ++ lines_text graph_lines) }
{
    append_lines(
        out,
        &[
            "architecture 1",
            "operator o0",
            "operator o1",
            "operator o2",
            "operator o3",
            "medium b0 multi 2 1",
            "medium b1 multi 2 1",
            "connect b0 o0",
            "connect b0 o1",
            "connect b0 o2",
            "connect b1 o2",
            "connect b1 o3",
        ],
    )
}

/// Appends the durations of the sensor and of the actuators.
fn append_end_durations(out: &mut Vec<u8>) -> Result<(), OutOfMemory>
    ensures { OnOk result (out.new.items ≡ out.old.items ++ lines_text end_durations) }
{
    append_lines(out, &["duration Src o0 1", "duration Dst o3 1"])
}

/// Appends the durations of the functions that last one tick.
fn append_short_durations(out: &mut Vec<u8>) -> Result<(), OutOfMemory>
    ensures { OnOk result (out.new.items ≡ out.old.items ++ short_durations) }
{
    append_everywhere(out, b"Bit", b"1")?;
    append_everywhere(out, b"Same", b"1")?;
    append_everywhere(out, b"Flip", b"1")?;
    append_everywhere(out, b"Acc", b"1")
}

/// Appends the durations of a function that lasts this many ticks on each operator.
fn append_everywhere(out: &mut Vec<u8>, name: &[u8], ticks: &[u8]) -> Result<(), OutOfMemory>
    ensures { OnOk result (out.new.items ≡ out.old.items ++ durations_everywhere name.now ticks.now) }
{
    append_duration(out, name, b"o0", ticks)?;
    append_duration(out, name, b"o1", ticks)?;
    append_duration(out, name, b"o2", ticks)?;
    append_duration(out, name, b"o3", ticks)
}

/// Appends how long a definition lasts on an operator.
fn append_duration(
    out: &mut Vec<u8>,
    name: &[u8],
    operator: &[u8],
    ticks: &[u8],
) -> Result<(), OutOfMemory>
    ensures { OnOk result (out.new.items ≡ out.old.items ++ duration_line name.now operator.now ticks.now) }
{
    append(out, b"duration ")?;
    append(out, name)?;
    append(out, b" ")?;
    append(out, operator)?;
    append(out, b" ")?;
    append(out, ticks)?;
    append(out, b"\n")
}
