//! The part of a block in which its last line stands, which decides the lines that may follow.
ghost use Rattle.std.specs.Prelude.{◌≡◌};
ghost use Rattle.algo_text.specs.Parts.{rank, admits, is_conditioning};

/// The part of a block in which its last line stands. Lines stand in the order of the parts: in a function
/// inputs and outputs; in a graph inputs, outputs, references and edges; in a switch the conditioning input,
/// inputs, outputs and cases, and at last `otherwise`. A repetition has no parts.
#[derive(Clone, Copy, Debug, Drop, PartialEq, Eq)]
pub enum Part {
    /// Before the line `on` of a switch, which has to be the first.
    Conditioning,
    Inputs,
    Outputs,
    References,
    Edges,
    Cases,
    /// After `otherwise`.
    Whole,
}

impl Part {
    /// The rank of a part in the order of the parts; references and cases have one, since no block has both.
    fn rank(self) -> u8
        ensures { result ≡ rank self }
    {
        match self {
            Part::Conditioning => 0,
            Part::Inputs => 1,
            Part::Outputs => 2,
            Part::References | Part::Cases => 3,
            Part::Edges | Part::Whole => 4,
        }
    }

    /// Whether the line `on` of a switch has to follow.
    pub fn is_conditioning(self) -> bool
        ensures { result ≡ is_conditioning self }
    {
        match self {
            Part::Conditioning => true,
            _ => false,
        }
    }

    /// Whether a line of the part `next` may follow. Before the line `on` of a switch no other may.
    pub fn admits(self, next: Part) -> bool
        ensures { result ≡ admits self next }
    {
        0 < self.rank() && self.rank() <= next.rank()
    }
}
