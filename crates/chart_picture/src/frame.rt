//! The frame of a chart: its sides, and the lanes up to their bars.
ghost use Rattle.std.specs.Prelude.{◌≡◌, ◌≤◌, ◌<◌, ◌++◌, ◌^◌, OnOk, map};
ghost use Rattle.svg_text.specs.Axis.{longest};
ghost use Rattle.chart_picture.specs.Frame.{ground_text, height_of_lanes, lane_text, margin, name_text, size_of};

use crate::sheet::{media_in, operators_in};
use self_timed::{Archi, Medium};
use svg_text::{Point, Scale, append_class, begin_aside, begin_group, end_text};
use syn_base::{Name, OutOfMemory, append, append_count};

/// The space for the names, left of the lanes.
pub fn margin(archi: &Archi) -> u64
    ensures same { result ≡ margin archi.now }
    ensures narrow { result ≤ 244 }
{
    let longest = longest_operator(archi.operators()).max(longest_medium(archi.media()));
    20 + 7 * longest.min(32) as u64
}

/// The bytes of the longest name of these operators.
fn longest_operator(operators: &[Name]) -> usize
    ensures { result ≡ longest operators.now }
{
    let mut longest = 0;
    for name in operators {
        longest = name.as_bytes().len().max(longest);
    }
    longest
}

/// The bytes of the longest name of these media.
fn longest_medium(media: &[Medium]) -> usize
    ensures { result ≡ longest (map (λ m. m.name) media.now) }
{
    let mut longest = 0;
    for medium in media {
        longest = medium.name.as_bytes().len().max(longest);
    }
    longest
}

/// The height of all lanes.
pub fn height_of_lanes(archi: &Archi) -> u64
    ensures same { result ≡ height_of_lanes archi.now }
    ensures low { result ≤ 1152 }
{
    36 * (operators_in(archi) + media_in(archi))
}

/// The sides of a picture on this scale.
pub fn size_of(archi: &Archi, scale: Scale) -> Point
    requires { scale.width ≤ 513000 }
    ensures { result ≡ size_of archi.now scale }
{
    Point {
        x: margin(archi) + scale.width + 24,
        y: height_of_lanes(archi) + 88,
    }
}

/// What tells one lane from another: the class of its ground, the word before its identifier, its
/// name and its number.
#[derive(Clone, Copy)]
pub struct Lane<'a> {
    pub class: &'a [u8],
    pub word: &'a [u8],
    pub name: &'a [u8],
    pub number: u64,
}

/// Begins a lane of this width: its ground, and its name. Next come its bars.
pub fn begin_lane(out: &mut Vec<u8>, width: u64, lane: &Lane) -> Result<(), OutOfMemory>
    requires { lane.now.number < 2 ^ 33 }
    ensures { OnOk result (out.new.items ≡ out.old.items ++
        lane_text width lane.now.class.now lane.now.word.now lane.now.name.now lane.now.number) }
{
    let origin = Point {
        x: 0,
        y: 36 * lane.number,
    };
    begin_group(out, lane.word, lane.name, origin)?;
    append_ground(out, lane.class, width)?;
    append_name(out, lane.name)
}

/// Appends the ground of a lane.
fn append_ground(out: &mut Vec<u8>, class: &[u8], width: u64) -> Result<(), OutOfMemory>
    ensures { OnOk result (out.new.items ≡ out.old.items ++ ground_text class.now width) }
{
    append(out, b"<path")?;
    append_class(out, class)?;
    append(out, b" d=\"M0 2H")?;
    append_count(out, width as usize)?;
    append(out, b"V34H0z\"/>\n")
}

/// Appends the name of a lane.
fn append_name(out: &mut Vec<u8>, name: &[u8]) -> Result<(), OutOfMemory>
    ensures { OnOk result (out.new.items ≡ out.old.items ++ name_text name.now) }
{
    begin_aside(out, b"name", b"22")?;
    append(out, name)?;
    end_text(out)
}
