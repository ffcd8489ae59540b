//! How far sequences went in one turn of a group.
ghost use Rattle.std.specs.Prelude.{◌≡◌, ◌+◌, min};

/// The micro-steps that were made, and how many sequences have not made all of theirs. Both numbers stand
/// at their last value.
#[derive(Clone, Copy, Debug, PartialEq, Eq)]
pub struct Progress {
    pub steps: u64,
    pub waiting: u64,
}

impl Progress {
    /// Of no sequence.
    pub const NONE: Progress = Progress {
        steps: 0,
        waiting: 0,
    };

    /// Of these sequences and of others.
    pub fn and(self, other: Progress) -> Progress
        ensures steps { result.steps ≡ min (self.steps + other.steps) u64.MAX }
        ensures waiting { result.waiting ≡ min (self.waiting + other.waiting) u64.MAX }
    {
        Progress {
            steps: self.steps.saturating_add(other.steps),
            waiting: self.waiting.saturating_add(other.waiting),
        }
    }
}
