//! The axis of a picture.
ghost use Rattle.std.specs.Prelude.{◌≡◌, ◌++◌, OnOk};
ghost use Rattle.std.specs.List.{flat_map, range_with_len};
ghost use Rattle.svg_text.specs.Axis.{axis_text, date_text, end_text, tick_text, ticks_text};
ghost use Rattle.svg_text.specs.Scale.{steps_of};

use crate::scale::Scale;
use crate::shapes::{Point, append_line, begin_group};
use crate::style::END_GROUP;
use crate::text::{begin_text, end_text};
use syn_base::{OutOfMemory, append, append_count};

/// Appends the axis over a height, and where all ends, which a word tells.
#[tactic(auto, unfolding(crate::specs::Axis::axis_text))]
pub fn append_axis(
    out: &mut Vec<u8>,
    word: &[u8],
    scale: Scale,
    height: u64,
) -> Result<(), OutOfMemory>
    ensures { OnOk result (out.new.items ≡ out.old.items ++ axis_text word.now scale height) }
{
    begin_group(out, b"axis", b"", Point { x: 0, y: 0 })?;
    append_ticks(out, scale, height)?;
    append_end(out, word, scale, height)?;
    append(out, END_GROUP)
}

/// Appends the dates at the axis.
#[tactic(auto, unfolding(crate::specs::Axis::ticks_text))]
fn append_ticks(out: &mut Vec<u8>, scale: Scale, height: u64) -> Result<(), OutOfMemory>
    ensures { OnOk result (out.new.items ≡ out.old.items ++ ticks_text scale height) }
{
    append_date(out, scale, height, 0)?;
    append_dates(out, scale, height)
}

/// Appends the dates at the axis beside 0.
fn append_dates(out: &mut Vec<u8>, scale: Scale, height: u64) -> Result<(), OutOfMemory>
    ensures { OnOk result (out.new.items ≡ out.old.items ++
        flat_map (tick_text scale height) (range_with_len 0 (steps_of scale))) }
{
    for k in 0..scale.steps() {
        append_date(out, scale, height, scale.date(k))?;
    }
    Ok(())
}

/// Appends a date at the axis.
#[tactic(auto, unfolding(crate::specs::Axis::date_text))]
fn append_date(out: &mut Vec<u8>, scale: Scale, height: u64, date: u64) -> Result<(), OutOfMemory>
    ensures { OnOk result (out.new.items ≡ out.old.items ++ date_text scale height date) }
{
    let x = scale.place(date);
    append_line(out, b"grid", Point { x, y: 0 }, height)?;
    begin_text(out, b"tick", x, b"-8")?;
    append_count(out, date as usize)?;
    end_text(out)
}

/// Appends where all ends.
#[tactic(auto, unfolding(crate::specs::Axis::end_text))]
fn append_end(out: &mut Vec<u8>, word: &[u8], scale: Scale, height: u64) -> Result<(), OutOfMemory>
    ensures { OnOk result (out.new.items ≡ out.old.items ++ end_text word.now scale height) }
{
    append_line(
        out,
        b"end",
        Point {
            x: scale.width,
            y: 0,
        },
        height,
    )?;
    begin_text(out, b"length", scale.width, b"-26")?;
    append(out, word)?;
    append_count(out, scale.length as usize)?;
    end_text(out)
}
