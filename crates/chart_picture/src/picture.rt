//! The picture as a whole, drawn for the command `chart`.
ghost use Rattle.std.specs.Prelude.{◌≡◌, ◌++◌, ◌+◌, ◌≤◌, ◌<◌, ◌^◌, OnErr, OnOk, codes, length, map};
ghost use Rattle.self_timed.specs.Acts.{acts_of, carry, is_on, is_over};
ghost use Rattle.chart_picture.specs.Bars.{bars_text};
ghost use Rattle.chart_picture.specs.Picture.{begin_text, lane_part, lanes_text, legend_text, medium_lanes, operator_lanes, picture, plot_text, scale_of, whole_text};

use crate::arrows::append_arrows;
use crate::bars::{append_carry, append_run};
use crate::frame::{Lane, begin_lane, height_of_lanes, margin, size_of};
use crate::sheet::{Sheet, operators_in};
use self_timed::{Archi, Decision, Flat, Medium, Schedule, Transfer};
use std::alloc::Global;
use svg_text::{
    END, END_GROUP, LEGEND, Point, Scale, append_axis, append_head, begin_group, widened,
};
use syn_base::{Name, OutOfMemory, append};

/// Appends the chart of a schedule as a picture in SVG: a lane for each operator, and then for each
/// medium; in it a bar for each operation that runs on it or transfer over it, in order of the
/// decisions, with a title that has its name, its dates and its place, and a label where that fits;
/// over the lanes an axis of dates in ticks, and the length; from each transfer an arrow to whoever
/// reads what it brings. The place of date t is `width * t / length`, rounded down. What the schedule
/// names and is not there has an empty name. After want of memory `out` is as before.
pub fn print_picture(
    alloc: Global,
    flat: &Flat,
    archi: &Archi,
    schedule: &Schedule,
    out: &mut Vec<u8>,
) -> Result<(), OutOfMemory>
    ensures text { OnOk result (out.new.items ≡ out.old.items ++ picture flat.now archi.now schedule.now) }
    ensures err { OnErr result (out.new.items ≡ out.old.items) }
{
    let scale = scale_of(flat, schedule);
    let sheet = Sheet { flat, archi, scale };
    let mut text = Vec::new(alloc);
    append_picture(&mut text, &sheet, schedule.decisions.as_slice())?;
    out.extend_from_slice(&text)?;
    Ok(())
}

/// The scale on which the whole length takes the width that is given for the operations.
fn scale_of(flat: &Flat, schedule: &Schedule) -> Scale
    ensures scale { result ≡ scale_of flat.now schedule.now }
    ensures narrow { result.width ≤ 513000 }
{
    Scale {
        width: widened(flat.vertices().len()),
        length: schedule.length(),
    }
}

/// Appends the whole picture. After want of memory part of it may stand there.
fn append_picture(
    out: &mut Vec<u8>,
    sheet: &Sheet,
    decisions: &[Decision],
) -> Result<(), OutOfMemory>
    requires { sheet.now.scale.width ≤ 513000 }
    ensures { OnOk result (out.new.items ≡ out.old.items ++
        whole_text sheet.now.flat.now sheet.now.archi.now sheet.now.scale (acts_of decisions.now)) }
{
    begin_picture(out, sheet.archi, sheet.scale)?;
    append_plot(out, sheet, decisions)?;
    append_legend(out, sheet.archi)?;
    end_picture(out)
}

/// Begins a picture on this scale, and the group of the whole chart.
#[tactic(auto, unfolding(crate::specs::Picture::begin_text))]
pub fn begin_picture(out: &mut Vec<u8>, archi: &Archi, scale: Scale) -> Result<(), OutOfMemory>
    requires { scale.width ≤ 513000 }
    ensures { OnOk result (out.new.items ≡ out.old.items ++ begin_text archi.now scale) }
{
    append_head(out, size_of(archi, scale))?;
    let origin = Point {
        x: margin(archi),
        y: 44,
    };
    begin_group(out, b"chart", b"", origin)
}

/// Ends the group of the whole chart, and the picture.
pub fn end_picture(out: &mut Vec<u8>) -> Result<(), OutOfMemory>
    ensures { OnOk result (out.new.items ≡ out.old.items ++ (END_GROUP.now ++ END.now)) }
{
    append(out, END_GROUP)?;
    append(out, END)
}

/// Appends what the colours mean, below the lanes.
fn append_legend(out: &mut Vec<u8>, archi: &Archi) -> Result<(), OutOfMemory>
    ensures { OnOk result (out.new.items ≡ out.old.items ++ legend_text archi.now) }
{
    let origin = Point {
        x: 0,
        y: height_of_lanes(archi) + 14,
    };
    begin_group(out, b"legend", b"", origin)?;
    append(out, LEGEND)?;
    append(out, END_GROUP)
}

/// Appends the axis, the lanes and the arrows.
fn append_plot(out: &mut Vec<u8>, sheet: &Sheet, decisions: &[Decision]) -> Result<(), OutOfMemory>
    ensures { OnOk result (out.new.items ≡ out.old.items ++
        plot_text sheet.now.flat.now sheet.now.archi.now sheet.now.scale (acts_of decisions.now)) }
{
    append_axis(out, b"length ", sheet.scale, height_of_lanes(sheet.archi))?;
    append_lanes(out, sheet, decisions)?;
    append_arrows(out, sheet, decisions)
}

/// Appends the lanes of all operators, and then those of all media.
#[tactic(auto, using(crate::proofs::Few::few_operators_in, crate::proofs::Few::few_media_in), unfolding(crate::specs::Picture::lanes_text))]
fn append_lanes(out: &mut Vec<u8>, sheet: &Sheet, decisions: &[Decision]) -> Result<(), OutOfMemory>
    ensures { OnOk result (out.new.items ≡ out.old.items ++
        lanes_text sheet.now.flat.now sheet.now.archi.now sheet.now.scale (acts_of decisions.now)) }
{
    append_operators(out, sheet, sheet.archi.operators(), decisions)?;
    append_media(out, sheet, sheet.archi.media(), decisions)
}

/// Appends the lanes of these operators.
fn append_operators(
    out: &mut Vec<u8>,
    sheet: &Sheet,
    operators: &[Name],
    decisions: &[Decision],
) -> Result<(), OutOfMemory>
    requires { length operators.now < 2 ^ 32 }
    ensures { OnOk result (out.new.items ≡ out.old.items ++ operator_lanes sheet.now.flat.now
        sheet.now.archi.now sheet.now.scale (acts_of decisions.now) 0 operators.now) }
{
    for (operator, name) in operators.iter().enumerate() {
        append_operator(out, sheet, operator, name.as_bytes(), decisions)?;
    }
    Ok(())
}

/// Appends the lanes of these media.
fn append_media(
    out: &mut Vec<u8>,
    sheet: &Sheet,
    media: &[Medium],
    decisions: &[Decision],
) -> Result<(), OutOfMemory>
    requires { length media.now < 2 ^ 32 }
    ensures { OnOk result (out.new.items ≡ out.old.items ++ medium_lanes sheet.now.flat.now
        sheet.now.archi.now sheet.now.scale (acts_of decisions.now) 0 media.now) }
{
    for (number, medium) in media.iter().enumerate() {
        append_medium(out, sheet, number, medium.name.as_bytes(), decisions)?;
    }
    Ok(())
}

/// Appends the lane of an operator.
fn append_operator(
    out: &mut Vec<u8>,
    sheet: &Sheet,
    operator: usize,
    name: &[u8],
    decisions: &[Decision],
) -> Result<(), OutOfMemory>
    requires { operator < 2 ^ 32 }
    ensures { OnOk result (out.new.items ≡ out.old.items ++
        lane_part sheet.now.flat.now sheet.now.archi.now sheet.now.scale (codes "lane") (codes "operator-")
        name.now operator (is_on operator) (acts_of decisions.now)) }
{
    let lane = Lane {
        class: b"lane",
        word: b"operator-",
        name,
        number: operator as u64,
    };
    begin_lane(out, sheet.scale.width, &lane)?;
    append_on(out, sheet, operator, decisions)?;
    append(out, END_GROUP)
}

/// Appends the lane of a medium, below those of the operators.
fn append_medium(
    out: &mut Vec<u8>,
    sheet: &Sheet,
    number: usize,
    name: &[u8],
    decisions: &[Decision],
) -> Result<(), OutOfMemory>
    requires { number < 2 ^ 32 }
    ensures { OnOk result (out.new.items ≡ out.old.items ++
        lane_part sheet.now.flat.now sheet.now.archi.now sheet.now.scale (codes "medium") (codes "medium-")
        name.now (length sheet.now.archi.now.operators + number) (is_over number) (acts_of decisions.now)) }
{
    let lane = Lane {
        class: b"medium",
        word: b"medium-",
        name,
        number: operators_in(sheet.archi) + number as u64,
    };
    begin_lane(out, sheet.scale.width, &lane)?;
    append_over(out, sheet, number, decisions)?;
    append(out, END_GROUP)
}

/// Appends the bars of the operations on an operator.
fn append_on(
    out: &mut Vec<u8>,
    sheet: &Sheet,
    operator: usize,
    decisions: &[Decision],
) -> Result<(), OutOfMemory>
    ensures { OnOk result (out.new.items ≡ out.old.items ++ bars_text sheet.now.flat.now
        sheet.now.archi.now sheet.now.scale (is_on operator) (acts_of decisions.now)) }
{
    for decision in decisions {
        if decision.operator as usize == operator {
            append_run(out, sheet, decision)?;
        }
    }
    Ok(())
}

/// Appends the bars of the transfers over a medium.
fn append_over(
    out: &mut Vec<u8>,
    sheet: &Sheet,
    medium: usize,
    decisions: &[Decision],
) -> Result<(), OutOfMemory>
    ensures { OnOk result (out.new.items ≡ out.old.items ++ bars_text sheet.now.flat.now
        sheet.now.archi.now sheet.now.scale (is_over medium) (acts_of decisions.now)) }
{
    for decision in decisions {
        append_carries(out, sheet, medium, decision.transfers.as_slice())?;
    }
    Ok(())
}

/// Appends the bars of those of these transfers that go over the medium.
fn append_carries(
    out: &mut Vec<u8>,
    sheet: &Sheet,
    medium: usize,
    transfers: &[Transfer],
) -> Result<(), OutOfMemory>
    ensures { OnOk result (out.new.items ≡ out.old.items ++ bars_text sheet.now.flat.now
        sheet.now.archi.now sheet.now.scale (is_over medium) (map carry transfers.now)) }
{
    for transfer in transfers {
        if transfer.medium as usize == medium {
            append_carry(out, sheet, *transfer)?;
        }
    }
    Ok(())
}
