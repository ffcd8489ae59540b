//! The picture as a whole, drawn for the command `plot`.
ghost use Rattle.std.specs.Prelude.{◌≡◌, ◌++◌, ◌<◌, ◌≤◌, ◌^◌, [], IfOk, OnOk, length, map, slice_index_or};
ghost use Rattle.std.specs.List.{flat_map, range_with_len};
ghost use Rattle.svg_text.specs.Axis.{longest};
ghost use Rattle.svg_text.specs.Plot.{actuator_text, actuators_text, element_text, ground_text, head_of, limit_text, limits_text, margin, name_text, panel_text, plot, plot_on, scale_of, size_of, top_of};

use crate::axis::append_axis;
use crate::curve::{Panel, append_element};
use crate::range::{Range, range_of};
use crate::scale::{Scale, widened};
use crate::shapes::{Point, append_head, begin_group};
use crate::style::{END, END_GROUP};
use crate::text::{begin_aside, end_text};
use std::alloc::Global;
use syn_base::{ActRows, OutOfMemory, append, append_count, print_int};

/// What actuators of these names take, as a picture in SVG: for each a panel with its least and its
/// greatest value, and in it a line for each element, which holds each value until the next reaction.
/// The height of a value is `120 * (value - least) / (greatest - least)`, rounded down; the place of
/// reaction k is `width * k / reactions`, rounded down.
pub fn plot_rows(alloc: Global, names: &[&[u8]], rows: &ActRows) -> Result<Vec<u8>, OutOfMemory>
    requires { length names.now ≤ length rows.now.lens }
    ensures { IfOk result (λ text. text.items ≡ plot (map (λ s. s.now) names.now) rows.now) }
{
    let scale = scale_of(rows.count());
    let mut text = Vec::new(alloc);
    append_plot(&mut text, scale, names, rows)?;
    Ok(text)
}

/// Appends the whole picture, on this scale.
#[tactic(auto, unfolding(crate::specs::Plot::plot_on))]
fn append_plot(
    out: &mut Vec<u8>,
    scale: Scale,
    names: &[&[u8]],
    rows: &ActRows,
) -> Result<(), OutOfMemory>
    requires names { length names.now ≤ length rows.now.lens }
    requires narrow { scale.width ≤ 513000 }
    ensures { OnOk result (out.new.items ≡ out.old.items ++ plot_on scale (map (λ s. s.now) names.now) rows.now) }
{
    append_begin(out, names, scale)?;
    append_axis(out, b"reactions ", scale, top_of(names.len()))?;
    append_actuators(out, scale, names, rows)?;
    append_both_ends(out)
}

/// Ends the group of the whole plot, and the picture.
fn append_both_ends(out: &mut Vec<u8>) -> Result<(), OutOfMemory>
    ensures { OnOk result (out.new.items ≡ out.old.items ++ (END_GROUP.now ++ END.now)) }
{
    append(out, END_GROUP)?;
    append(out, END)
}

/// The scale of so many reactions.
fn scale_of(reactions: usize) -> Scale
    ensures scale { result ≡ scale_of reactions }
    ensures narrow { result.width ≤ 513000 }
{
    Scale {
        width: widened(reactions / 8),
        length: reactions as u64,
    }
}

/// The top of the panel of an actuator.
fn top_of(actuator: usize) -> u64
    ensures top { result ≡ top_of actuator }
    ensures low { result ≤ 10485760 }
{
    160 * actuator.min(65536) as u64
}

/// The space left of the panels.
fn margin(names: &[&[u8]]) -> u64
    ensures margin { result ≡ margin (map (λ s. s.now) names.now) }
    ensures narrow { result ≤ 244 }
{
    20 + 7 * longest_of(names).max(20).min(32) as u64
}

/// The bytes of the longest of these names.
fn longest_of(names: &[&[u8]]) -> usize
    ensures { result ≡ longest (map (λ s. s.now) names.now) }
{
    let mut longest = 0;
    for name in names {
        longest = name.len().max(longest);
    }
    longest
}

/// Appends the beginning of the picture, and of the group of the whole plot.
#[tactic(auto, unfolding(crate::specs::Plot::head_of))]
fn append_begin(out: &mut Vec<u8>, names: &[&[u8]], scale: Scale) -> Result<(), OutOfMemory>
    requires { scale.width ≤ 513000 }
    ensures { OnOk result (out.new.items ≡ out.old.items ++ head_of (map (λ s. s.now) names.now) scale) }
{
    let margin = margin(names);
    let size = Point {
        x: margin + scale.width + 24,
        y: top_of(names.len()) + 44,
    };
    append_head(out, size)?;
    begin_group(out, b"plot", b"", Point { x: margin, y: 44 })
}

/// Appends the panels of all actuators.
fn append_actuators(
    out: &mut Vec<u8>,
    scale: Scale,
    names: &[&[u8]],
    rows: &ActRows,
) -> Result<(), OutOfMemory>
    requires { length names.now ≤ length rows.now.lens }
    ensures { OnOk result (out.new.items ≡ out.old.items ++
        actuators_text scale rows.now 0 (map (λ s. s.now) names.now)) }
{
    for (number, name) in names.iter().enumerate() {
        append_actuator(out, scale, name, number, rows)?;
    }
    Ok(())
}

/// Appends the panel of an actuator, with its lines.
#[tactic(auto, unfolding(crate::specs::Plot::actuator_text))]
fn append_actuator(
    out: &mut Vec<u8>,
    scale: Scale,
    name: &[u8],
    number: usize,
    rows: &ActRows,
) -> Result<(), OutOfMemory>
    requires { number < length rows.now.lens }
    ensures { OnOk result (out.new.items ≡ out.old.items ++ actuator_text scale name.now number
        (slice_index_or rows.now.lens number 0) rows.now.reactions) }
{
    let range = range_of(rows, number);
    append_panel(out, scale.width, name, number, range)?;
    let panel = Panel {
        rows,
        name,
        number,
        range,
        scale,
    };
    append_elements(out, &panel, rows.lens()[number])?;
    append(out, END_GROUP)
}

/// Appends the panel of an actuator, up to its lines.
fn append_panel(
    out: &mut Vec<u8>,
    width: u64,
    name: &[u8],
    number: usize,
    range: Range,
) -> Result<(), OutOfMemory>
    ensures { OnOk result (out.new.items ≡ out.old.items ++ panel_text width name.now number range) }
{
    let origin = Point {
        x: 0,
        y: top_of(number),
    };
    begin_group(out, b"actuator-", name, origin)?;
    append_ground(out, width)?;
    append_name(out, name)?;
    append_limits(out, range)
}

/// Appends the ground of a panel.
fn append_ground(out: &mut Vec<u8>, width: u64) -> Result<(), OutOfMemory>
    ensures { OnOk result (out.new.items ≡ out.old.items ++ ground_text width) }
{
    append(out, b"<path class=\"lane\" d=\"M0 0H")?;
    append_count(out, width as usize)?;
    append(out, b"V120H0z\"/>\n")
}

/// Appends the name of a panel.
fn append_name(out: &mut Vec<u8>, name: &[u8]) -> Result<(), OutOfMemory>
    ensures { OnOk result (out.new.items ≡ out.old.items ++ name_text name.now) }
{
    begin_aside(out, b"name", b"64")?;
    append(out, name)?;
    end_text(out)
}

/// Appends the greatest value of a panel, and the least one.
fn append_limits(out: &mut Vec<u8>, range: Range) -> Result<(), OutOfMemory>
    ensures { OnOk result (out.new.items ≡ out.old.items ++ limits_text range) }
{
    append_limit(out, b"10", range.high)?;
    append_limit(out, b"120", range.low)
}

/// Appends a value at a height.
#[tactic(auto, unfolding(crate::specs::Plot::limit_text))]
fn append_limit(out: &mut Vec<u8>, y: &[u8], value: i64) -> Result<(), OutOfMemory>
    ensures { OnOk result (out.new.items ≡ out.old.items ++ limit_text y.now value) }
{
    begin_aside(out, b"value", y)?;
    print_int(value, out)?;
    end_text(out)
}

/// Appends this many elements of a panel.
fn append_elements(out: &mut Vec<u8>, panel: &Panel, count: u32) -> Result<(), OutOfMemory>
    requires { panel.now.number < length panel.now.rows.now.lens }
    ensures { OnOk result (out.new.items ≡ out.old.items ++ flat_map (element_text panel.now.scale
        panel.now.range panel.now.name.now panel.now.number panel.now.rows.now.reactions)
        (range_with_len 0 count)) }
{
    for place in 0..count {
        append_element(out, panel, place as usize)?;
    }
    Ok(())
}
