//! The lines of acts, and when the last act in each has ended, as `reaction` goes on.
ghost use Rattle.std.specs.Prelude.{◌≡◌, ℕ, length, slice_index_or};
ghost use Rattle.syn_base.specs.Limits.{bound_of};
ghost use Rattle.syn_base.specs.declared.limits.LimitKind.TheVariants.{Operators};
ghost use Rattle.self_timed.specs.Lines.{AreStarted, IsLine, last_in, noted};

/// Where an act stands in line: at the operator on which an operation runs, or at the medium over which
/// a value is carried.
#[derive(Clone, Copy, Debug, PartialEq, Eq)]
pub enum Line {
    Operator(u32),
    Medium(u32),
}

/// The last end on each operator, or over each medium.
type LastEnds = [u64; 16];

/// When the last act so far has ended on each operator and over each medium, by number; 0 where there
/// was none.
#[derive(Drop)]
pub struct Ends {
    operators: LastEnds,
    media: LastEnds,
}

impl Ends {
    /// Nothing has ended so far.
    pub fn new() -> Ends
        ensures { AreStarted result }
    {
        Ends {
            operators: no_dates(),
            media: no_dates(),
        }
    }

    /// The last end in the line.
    pub fn last(&self, line: Line) -> u64
        requires { IsLine line }
        ensures { result ≡ last_in self.now line }
    {
        match line {
            Line::Operator(operator) => self.operators[operator as usize],
            Line::Medium(medium) => self.media[medium as usize],
        }
    }

    /// One more act in the line has ended.
    pub fn note(&mut self, line: Line, end: u64)
        requires { IsLine line }
        ensures { self.new ≡ noted self.old line end }
    {
        match line {
            Line::Operator(operator) => self.operators[operator as usize] = end,
            Line::Medium(medium) => self.media[medium as usize] = end,
        }
    }
}

/// The last ends of operators or media before anything has ended.
fn no_dates() -> LastEnds
    ensures size { length result ≡ bound_of Operators }
    ensures none { (i : ℕ) → slice_index_or result i 0 ≡ 0 }
{
    [0; 16]
}
