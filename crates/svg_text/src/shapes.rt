//! The elements of a picture.
ghost use Rattle.std.specs.Prelude.{◌≡◌, ◌++◌, ◌+◌, ◌/◌, ◌%◌, ◌<◌, ◌^◌, OnOk, codes};
ghost use Rattle.std.specs.Fmt.{decimal};
ghost use Rattle.svg_text.specs.Shapes.{arrow_text, bar_end, bar_text, class_text, curve_text, group_text, head_text, line_text, move_text, origin_text, paper_text, point_text, root_text, shade_text, sides_of_bar, sides_text, tile_text, view_text};

use crate::style::STYLE;
use syn_base::{OutOfMemory, append, append_count};

/// A point of a picture, from its origin to the right and down.
#[derive(Clone, Copy, Debug, PartialEq, Eq)]
pub struct Point {
    pub x: u64,
    pub y: u64,
}

/// Appends the beginning of a picture of these sides: its style, and its paper.
#[tactic(auto, unfolding(crate::specs::Shapes::head_text))]
pub fn append_head(out: &mut Vec<u8>, size: Point) -> Result<(), OutOfMemory>
    ensures { OnOk result (out.new.items ≡ out.old.items ++ head_text size) }
{
    append_root(out, size)?;
    append(out, STYLE)?;
    append_paper(out, size)
}

/// Appends the root element.
#[tactic(auto, unfolding(crate::specs::Shapes::root_text))]
fn append_root(out: &mut Vec<u8>, size: Point) -> Result<(), OutOfMemory>
    ensures { OnOk result (out.new.items ≡ out.old.items ++ root_text size) }
{
    append(out, b"<svg xmlns=\"http://www.w3.org/2000/svg\"")?;
    append_sides(out, size)?;
    append_view(out, size)
}

/// Appends the part of the picture that is seen, which is all of it.
#[tactic(auto, unfolding(crate::specs::Shapes::view_text))]
fn append_view(out: &mut Vec<u8>, size: Point) -> Result<(), OutOfMemory>
    ensures { OnOk result (out.new.items ≡ out.old.items ++ view_text size) }
{
    append(out, b" viewBox=\"0 0 ")?;
    append_point(out, size)?;
    append(out, b"\">\n")
}

/// Appends a rectangle as large as the picture.
#[tactic(auto, unfolding(crate::specs::Shapes::paper_text))]
fn append_paper(out: &mut Vec<u8>, size: Point) -> Result<(), OutOfMemory>
    ensures { OnOk result (out.new.items ≡ out.old.items ++ paper_text size) }
{
    append(out, b"<rect class=\"paper\"")?;
    append_sides(out, size)?;
    append(out, b"/>\n")
}

/// Appends the attributes of both sides.
#[tactic(auto, unfolding(crate::specs::Shapes::sides_text))]
fn append_sides(out: &mut Vec<u8>, size: Point) -> Result<(), OutOfMemory>
    ensures { OnOk result (out.new.items ≡ out.old.items ++ sides_text size) }
{
    append(out, b" width=\"")?;
    append_count(out, size.x as usize)?;
    append(out, b"\" height=\"")?;
    append_count(out, size.y as usize)?;
    append(out, b"\"")
}

/// Appends a point.
#[tactic(auto, unfolding(crate::specs::Shapes::point_text))]
fn append_point(out: &mut Vec<u8>, point: Point) -> Result<(), OutOfMemory>
    ensures { OnOk result (out.new.items ≡ out.old.items ++ point_text point) }
{
    append_count(out, point.x as usize)?;
    append(out, b" ")?;
    append_count(out, point.y as usize)
}

/// Appends the attribute of a class.
#[tactic(auto, unfolding(crate::specs::Shapes::class_text))]
pub fn append_class(out: &mut Vec<u8>, class: &[u8]) -> Result<(), OutOfMemory>
    ensures { OnOk result (out.new.items ≡ out.old.items ++ class_text class.now) }
{
    append(out, b" class=\"")?;
    append(out, class)?;
    append(out, b"\"")
}

/// Begins a group, whose identifier is a word and then a name, and whose origin is at a point.
#[tactic(auto, unfolding(crate::specs::Shapes::group_text))]
pub fn begin_group(
    out: &mut Vec<u8>,
    word: &[u8],
    name: &[u8],
    origin: Point,
) -> Result<(), OutOfMemory>
    ensures { OnOk result (out.new.items ≡ out.old.items ++ group_text word.now name.now origin) }
{
    append(out, b"<g id=\"")?;
    append(out, word)?;
    append(out, name)?;
    append_origin(out, origin)
}

/// Appends the origin of a group, and the end of its first tag.
#[tactic(auto, unfolding(crate::specs::Shapes::origin_text))]
fn append_origin(out: &mut Vec<u8>, origin: Point) -> Result<(), OutOfMemory>
    ensures { OnOk result (out.new.items ≡ out.old.items ++ origin_text origin) }
{
    append(out, b"\" transform=")?;
    append_move(out, origin)?;
    append(out, b">\n")
}

/// Appends how an origin is moved.
#[tactic(auto, unfolding(crate::specs::Shapes::move_text))]
fn append_move(out: &mut Vec<u8>, origin: Point) -> Result<(), OutOfMemory>
    ensures { OnOk result (out.new.items ≡ out.old.items ++ move_text origin) }
{
    append(out, b"\"translate(")?;
    append_point(out, origin)?;
    append(out, b")\"")
}

/// Begins a bar of a lane, from one place to another. Next comes the text of its title.
#[tactic(auto, unfolding(crate::specs::Shapes::bar_text))]
pub fn begin_bar(out: &mut Vec<u8>, class: &[u8], left: u64, right: u64) -> Result<(), OutOfMemory>
    ensures { OnOk result (out.new.items ≡ out.old.items ++ bar_text class.now left right) }
{
    append(out, b"<path")?;
    append_class(out, class)?;
    append_sides_of_bar(out, left, right)?;
    append(out, b"><title>")
}

/// Appends the attribute of a bar's sides.
#[tactic(auto, unfolding(crate::specs::Shapes::sides_of_bar))]
fn append_sides_of_bar(out: &mut Vec<u8>, left: u64, right: u64) -> Result<(), OutOfMemory>
    ensures { OnOk result (out.new.items ≡ out.old.items ++ sides_of_bar left right) }
{
    append(out, b" d=\"M")?;
    append_count(out, left as usize)?;
    append(out, b" 6H")?;
    append_count(out, right as usize)?;
    append(out, b"V30H")?;
    append_count(out, left as usize)?;
    append(out, b"z\"")
}

/// Begins a tile from one place to another, below a height. Next comes the text of its title.
#[tactic(auto, unfolding(crate::specs::Shapes::tile_text))]
pub fn begin_tile(out: &mut Vec<u8>, left: u64, right: u64, top: u64) -> Result<(), OutOfMemory>
    ensures { OnOk result (out.new.items ≡ out.old.items ++ tile_text left right top) }
{
    append(out, b"<path d=\"M")?;
    append_point(out, Point { x: left, y: top })?;
    append(out, b"H")?;
    append_count(out, right as usize)?;
    append(out, b"v24H")?;
    append_count(out, left as usize)?;
    append(out, b"z\"><title>")
}

/// Begins a group, whose identifier is a word and then a number, and which has the shade of the
/// number: one of eight in turn.
#[tactic(auto, unfolding(crate::specs::Shapes::shade_text))]
pub fn begin_shade(out: &mut Vec<u8>, word: &[u8], number: usize) -> Result<(), OutOfMemory>
    ensures { OnOk result (out.new.items ≡ out.old.items ++ shade_text word.now number) }
{
    append(out, b"<g id=\"")?;
    append(out, word)?;
    append_count(out, number)?;
    append(out, b"\" class=\"shade")?;
    append_count(out, number % 8 + 1)?;
    append(out, b"\">\n")
}

/// Ends a bar or a tile, after its title.
#[tactic(auto, unfolding(crate::specs::Shapes::bar_end))]
pub fn end_bar(out: &mut Vec<u8>) -> Result<(), OutOfMemory>
    ensures { OnOk result (out.new.items ≡ out.old.items ++ bar_end) }
{
    append(out, b"</title></path>\n")
}

/// Appends a vertical line down from a point, of this length.
#[tactic(auto, unfolding(crate::specs::Shapes::line_text))]
pub fn append_line(
    out: &mut Vec<u8>,
    class: &[u8],
    from: Point,
    length: u64,
) -> Result<(), OutOfMemory>
    ensures { OnOk result (out.new.items ≡ out.old.items ++ line_text class.now from length) }
{
    append(out, b"<path")?;
    append_class(out, class)?;
    append(out, b" d=\"M")?;
    append_point(out, from)?;
    append(out, b"v")?;
    append_count(out, length as usize)?;
    append(out, b"\"/>\n")
}

/// Appends an arrow from a point to another.
#[tactic(auto, unfolding(crate::specs::Shapes::arrow_text))]
pub fn append_arrow(out: &mut Vec<u8>, from: Point, to: Point) -> Result<(), OutOfMemory>
    requires { from.y + to.y < 2 ^ 64 }
    ensures { OnOk result (out.new.items ≡ out.old.items ++ arrow_text from to) }
{
    append(out, b"<path class=\"arrow\" d=\"M")?;
    append_curve(out, from, to)?;
    append(out, b"\"/>\n")
}

/// Appends a curve that leaves and arrives vertically.
#[tactic(auto, unfolding(crate::specs::Shapes::curve_text))]
fn append_curve(out: &mut Vec<u8>, from: Point, to: Point) -> Result<(), OutOfMemory>
    requires { from.y + to.y < 2 ^ 64 }
    ensures { OnOk result (out.new.items ≡ out.old.items ++ curve_text from to) }
{
    let half = (from.y + to.y) / 2;
    append_point(out, from)?;
    append(out, b"C")?;
    append_point(out, Point { x: from.x, y: half })?;
    append(out, b" ")?;
    append_point(out, Point { x: to.x, y: half })?;
    append(out, b" ")?;
    append_point(out, to)
}
