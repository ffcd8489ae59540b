//! The lines of a panel.
ghost use Rattle.std.specs.Prelude.{◌≡◌, ◌++◌, ◌<◌, ◌≤◌, ◌^◌, OnOk, length};
ghost use Rattle.svg_text.specs.Level.{level};
ghost use Rattle.svg_text.specs.Plot.{begin_text, curve_text, element_text, end_text, key_text, step_text, steps_text, title_text};

use crate::level::level;
use crate::range::{Range, value_of};
use crate::scale::Scale;
use crate::shapes::end_bar;
use crate::text::end_text;
use syn_base::{ActRows, OutOfMemory, append, append_count};

/// An actuator whose lines are drawn: its number, its name, its values and their range.
#[derive(Clone, Copy)]
pub struct Panel<'a> {
    pub rows: &'a ActRows,
    pub name: &'a [u8],
    pub number: usize,
    pub range: Range,
    pub scale: Scale,
}

/// Appends an element: its number below the panel, and its line.
pub fn append_element(out: &mut Vec<u8>, panel: &Panel, place: usize) -> Result<(), OutOfMemory>
    requires number { panel.now.number < length panel.now.rows.now.lens }
    requires place { place < 2 ^ 32 }
    ensures { OnOk result (out.new.items ≡ out.old.items ++ element_text panel.now.scale panel.now.range
        panel.now.name.now panel.now.number panel.now.rows.now.reactions place) }
{
    append_key(out, place)?;
    append_curve(out, panel, place)
}

/// Appends the number of an element, in its colour.
fn append_key(out: &mut Vec<u8>, place: usize) -> Result<(), OutOfMemory>
    requires { place < 2 ^ 32 }
    ensures { OnOk result (out.new.items ≡ out.old.items ++ key_text place) }
{
    append(out, b"<text class=\"ink")?;
    append_count(out, place % 8 + 1)?;
    append(out, b"\" x=\"")?;
    append_count(out, 16 * place)?;
    append(out, b"\" y=\"134\">")?;
    append_count(out, place)?;
    end_text(out)
}

/// Appends the line of an element, each of whose values is held until the next reaction.
#[tactic(auto, unfolding(crate::specs::Plot::curve_text))]
fn append_curve(out: &mut Vec<u8>, panel: &Panel, place: usize) -> Result<(), OutOfMemory>
    requires { panel.now.number < length panel.now.rows.now.lens }
    ensures { OnOk result (out.new.items ≡ out.old.items ++ curve_text panel.now.scale panel.now.range
        panel.now.name.now panel.now.number place panel.now.rows.now.reactions) }
{
    let first = value_of(panel.rows, 0, panel.number, place);
    append_begin(out, place, level(panel.range, first))?;
    append_steps(out, panel, place)?;
    append_end(out, panel.scale.width, panel.name, place)
}

/// Appends the beginning of a line, which begins at a height.
fn append_begin(out: &mut Vec<u8>, place: usize, height: u64) -> Result<(), OutOfMemory>
    ensures { OnOk result (out.new.items ≡ out.old.items ++ begin_text place height) }
{
    append(out, b"<path class=\"curve line")?;
    append_count(out, place % 8 + 1)?;
    append(out, b"\" d=\"M0 ")?;
    append_count(out, height as usize)
}

/// Appends the steps of a line, reaction by reaction.
fn append_steps(out: &mut Vec<u8>, panel: &Panel, place: usize) -> Result<(), OutOfMemory>
    requires { panel.now.number < length panel.now.rows.now.lens }
    ensures { OnOk result (out.new.items ≡ out.old.items ++ steps_text panel.now.scale panel.now.range
        panel.now.number place 0 panel.now.rows.now.reactions) }
{
    for k in 0..panel.rows.count() {
        let value = value_of(panel.rows, k, panel.number, place);
        append_step(out, panel.scale, panel.range, k, value)?;
    }
    Ok(())
}

/// Appends the step of a reaction: to its place, and from there at the height of its value.
fn append_step(
    out: &mut Vec<u8>,
    scale: Scale,
    range: Range,
    reaction: usize,
    value: i64,
) -> Result<(), OutOfMemory>
    ensures { OnOk result (out.new.items ≡ out.old.items ++ step_text scale range reaction value) }
{
    append(out, b"H")?;
    append_count(out, scale.place(reaction as u64) as usize)?;
    append(out, b"V")?;
    append_count(out, level(range, value) as usize)
}

/// Appends the end of a line, at the right side, and its title.
fn append_end(out: &mut Vec<u8>, width: u64, name: &[u8], place: usize) -> Result<(), OutOfMemory>
    ensures { OnOk result (out.new.items ≡ out.old.items ++ end_text width name.now place) }
{
    append(out, b"H")?;
    append_count(out, width as usize)?;
    append(out, b"\"><title>")?;
    append_title(out, name, place)?;
    end_bar(out)
}

/// Appends the name of an actuator, and the number of an element.
fn append_title(out: &mut Vec<u8>, name: &[u8], place: usize) -> Result<(), OutOfMemory>
    ensures { OnOk result (out.new.items ≡ out.old.items ++ title_text name.now place) }
{
    append(out, name)?;
    append(out, b"[")?;
    append_count(out, place)?;
    append(out, b"]")
}
