//! The colours of operators and media.
ghost use Rattle.std.specs.Prelude.{◌≡◌, ◌+◌, ◌*◌, ◌%◌, slice_range};
ghost use Rattle.graph_drawing.specs.Colours.{fill_of, stroke_of};

/// Sixteen light colours, on which black letters are read.
const FILLS: &[u8] =
    b"#77aadd#ee8866#eedd88#ffaabb#99ddff#44bb99#bbcc33#aaaa00#dddddd#cc99bb#f4a582#92c5de#d9f0d3#fddbc7#c2a5cf#e6f5a0";

/// Sixteen dark colours, for lines on white.
const STROKES: &[u8] =
    b"#0077bb#cc3311#009988#ee3377#aa4499#117733#332288#882255#ee7733#33bbee#999933#661100#6699cc#aa4466#4477aa#228833";

/// The colour of an operator.
#[tactic(auto, unfolding(crate::specs::Colours::fill_of))]
pub fn fill_of(operator: usize) -> &'static [u8]
    ensures { result.now ≡ fill_of operator }
{
    let from = operator % 16 * 7;
    &FILLS[from..from + 7]
}

/// The colour of a medium.
#[tactic(auto, unfolding(crate::specs::Colours::stroke_of))]
pub fn stroke_of(medium: usize) -> &'static [u8]
    ensures { result.now ≡ stroke_of medium }
{
    let from = medium % 16 * 7;
    &STROKES[from..from + 7]
}
