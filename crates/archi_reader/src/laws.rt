//! The laws of accepted texts: what they describe is an architecture, and the canonical text says
//! the same.
ghost use Rattle.std.specs.Prelude.{◌≡◌, ◌+◌, ◌≤◌, length, Ok};
ghost use Rattle.text_lines.specs.Text.{lines_of};
ghost use Rattle.syn_base.specs.Bytes.{Bytes};
ghost use Rattle.archi_defs.specs.Text.{Described, description_of};
ghost use Rattle.archi_reader.specs.Accepted.{DescribedAreArchitectures};
ghost use Rattle.archi_reader.specs.Canonical.{canonical_text, depth_lines};

/// What an accepted text describes is an architecture, with 1 to 4 places.
pub fn described_are_architectures()
    ensures { DescribedAreArchitectures }
{}

/// The canonical text of what a text describes says the same, in no more lines; but it always has the line of
/// the depth where the text is of version 2.
pub fn one_canonical_text()
    ensures same { (text : Bytes) (d : Described) → description_of text ≡ Ok d →
        description_of (canonical_text d) ≡ Ok d }
    ensures lines { (text : Bytes) (d : Described) → description_of text ≡ Ok d →
        length (lines_of (canonical_text d)) ≤ length (lines_of text) +
        length (depth_lines d.version d.archi.depth) }
{}
