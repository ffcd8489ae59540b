//! The texts of a picture.
ghost use Rattle.std.specs.Prelude.{◌≡◌, ◌++◌, OnOk};
ghost use Rattle.svg_text.specs.Shapes.{aside_text, words_end, words_text};

use crate::shapes::append_class;
use syn_base::{OutOfMemory, append, append_count};

/// Begins a text of a class, at a place and at a height that is given as a number may be written.
#[tactic(auto, unfolding(crate::specs::Shapes::words_text))]
pub fn begin_text(out: &mut Vec<u8>, class: &[u8], x: u64, y: &[u8]) -> Result<(), OutOfMemory>
    ensures { OnOk result (out.new.items ≡ out.old.items ++ words_text class.now x y.now) }
{
    append(out, b"<text")?;
    append_class(out, class)?;
    append(out, b" x=\"")?;
    append_count(out, x as usize)?;
    append(out, b"\" y=\"")?;
    append(out, y)?;
    append(out, b"\">")
}

/// Begins a text of a class left of the origin, at a height that is given as a number may be written.
#[tactic(auto, unfolding(crate::specs::Shapes::aside_text))]
pub fn begin_aside(out: &mut Vec<u8>, class: &[u8], y: &[u8]) -> Result<(), OutOfMemory>
    ensures { OnOk result (out.new.items ≡ out.old.items ++ aside_text class.now y.now) }
{
    append(out, b"<text")?;
    append_class(out, class)?;
    append(out, b" x=\"-8\" y=\"")?;
    append(out, y)?;
    append(out, b"\">")
}

/// Ends a text.
#[tactic(auto, unfolding(crate::specs::Shapes::words_end))]
pub fn end_text(out: &mut Vec<u8>) -> Result<(), OutOfMemory>
    ensures { OnOk result (out.new.items ≡ out.old.items ++ words_end) }
{
    append(out, b"</text>\n")
}
