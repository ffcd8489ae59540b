//! What stands below the bars: the lanes, the axis, and where the chart repeated would end.
ghost use Rattle.std.specs.Prelude.{◌≡◌, ◌≤◌, ◌<◌, ◌+◌, ◌++◌, ◌^◌, OnOk, length};
ghost use Rattle.std.specs.List.{flat_map, range_with_len};
ghost use Rattle.chart_picture.specs.DatesPicture.{board_text, ground_text, lanes_text, medium_lanes, note_text, note_words, operator_lanes, repeat_text, repeated, repeats_text};

use crate::frame::{Lane, begin_lane, height_of_lanes};
use crate::sheet::operators_in;
use self_timed::{Archi, Medium};
use svg_text::{
    END_GROUP, Point, Scale, append_axis, append_line, begin_group, begin_text, end_text,
};
use syn_base::{Name, OutOfMemory, append, append_count};

/// The date at which so many reactions would end if the chart of these ticks were repeated, one after
/// another, as far as dates have 64 bits.
pub fn repeated(reactions: usize, ticks: u64) -> u64
    ensures { result ≡ repeated reactions ticks }
{
    (reactions as u64).saturating_mul(ticks)
}

/// Appends lanes, axis, and where each of so many repetitions of the chart of these ticks would end.
pub fn append_board(
    out: &mut Vec<u8>,
    archi: &Archi,
    scale: Scale,
    ticks: u64,
    reactions: usize,
) -> Result<(), OutOfMemory>
    ensures { OnOk result (out.new.items ≡ out.old.items ++ board_text archi.now scale ticks reactions) }
{
    let height = height_of_lanes(archi);
    append_lanes(out, archi, scale.width)?;
    append_axis(out, b"chart repeated: ", scale, height)?;
    append_repeats(out, scale, height, ticks, reactions)
}

/// Appends the lanes of all operators, and then those of all media.
#[tactic(auto, unfolding(crate::specs::DatesPicture::lanes_text))]
fn append_lanes(out: &mut Vec<u8>, archi: &Archi, width: u64) -> Result<(), OutOfMemory>
    ensures { OnOk result (out.new.items ≡ out.old.items ++ lanes_text archi.now width) }
{
    append_operators(out, width, archi.operators())?;
    append_media(out, width, operators_in(archi), archi.media())
}

/// Appends the lanes of these operators.
fn append_operators(out: &mut Vec<u8>, width: u64, operators: &[Name]) -> Result<(), OutOfMemory>
    requires { length operators.now < 2 ^ 32 }
    ensures { OnOk result (out.new.items ≡ out.old.items ++ operator_lanes width 0 operators.now) }
{
    for (operator, name) in operators.iter().enumerate() {
        let lane = Lane {
            class: b"lane",
            word: b"operator-",
            name: name.as_bytes(),
            number: operator as u64,
        };
        append_ground(out, width, &lane)?;
    }
    Ok(())
}

/// Appends the lanes of these media, of which the first has this number.
fn append_media(
    out: &mut Vec<u8>,
    width: u64,
    first: u64,
    media: &[Medium],
) -> Result<(), OutOfMemory>
    requires { first + length media.now < 2 ^ 32 }
    ensures { OnOk result (out.new.items ≡ out.old.items ++ medium_lanes width first media.now) }
{
    for (number, medium) in media.iter().enumerate() {
        let lane = Lane {
            class: b"medium",
            word: b"medium-",
            name: medium.name.as_bytes(),
            number: first + number as u64,
        };
        append_ground(out, width, &lane)?;
    }
    Ok(())
}

/// Appends a lane with no bars.
#[tactic(auto, unfolding(crate::specs::DatesPicture::ground_text))]
fn append_ground(out: &mut Vec<u8>, width: u64, lane: &Lane) -> Result<(), OutOfMemory>
    requires { lane.now.number < 2 ^ 33 }
    ensures { OnOk result (out.new.items ≡ out.old.items ++
        ground_text width lane.now.class.now lane.now.word.now lane.now.name.now lane.now.number) }
{
    begin_lane(out, width, lane)?;
    append(out, END_GROUP)
}

/// Appends a line over lanes of this height where each repetition of the chart would end.
fn append_repeats(
    out: &mut Vec<u8>,
    scale: Scale,
    height: u64,
    ticks: u64,
    reactions: usize,
) -> Result<(), OutOfMemory>
    ensures { OnOk result (out.new.items ≡ out.old.items ++ repeats_text scale height ticks reactions) }
{
    begin_group(out, b"repetitions", b"", Point { x: 0, y: 0 })?;
    append_lines(out, scale, height, ticks, reactions)?;
    append(out, END_GROUP)
}

/// Appends these lines.
fn append_lines(
    out: &mut Vec<u8>,
    scale: Scale,
    height: u64,
    ticks: u64,
    reactions: usize,
) -> Result<(), OutOfMemory>
    ensures { OnOk result (out.new.items ≡ out.old.items ++
        flat_map (repeat_text scale height ticks) (range_with_len 0 reactions)) }
{
    for k in 0..reactions {
        let x = scale.place(repeated(k + 1, ticks));
        append_line(out, b"end", Point { x, y: 0 }, height)?;
    }
    Ok(())
}

/// Appends what the lines and the shades mean, where the chart has these ticks.
pub fn append_note(out: &mut Vec<u8>, archi: &Archi, ticks: u64) -> Result<(), OutOfMemory>
    ensures { OnOk result (out.new.items ≡ out.old.items ++ note_text archi.now ticks) }
{
    let origin = Point {
        x: 0,
        y: height_of_lanes(archi) + 14,
    };
    begin_group(out, b"note", b"", origin)?;
    append_words(out, ticks)?;
    append(out, END_GROUP)
}

/// Appends the words of the note.
fn append_words(out: &mut Vec<u8>, ticks: u64) -> Result<(), OutOfMemory>
    ensures { OnOk result (out.new.items ≡ out.old.items ++ note_words ticks) }
{
    begin_text(out, b"note", 0, b"10")?;
    append(out, NOTE)?;
    append_count(out, ticks as usize)?;
    end_text(out)
}

/// What the lines and the shades mean, before the ticks of the chart.
pub const NOTE: &[u8] = b"a shade for each reaction; dashed lines: the chart repeated, its ticks ";
