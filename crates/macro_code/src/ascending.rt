//! Numbers that ascend from line to line: of operators, and of media.
ghost use Rattle.std.specs.Prelude.{◌≡◌};
ghost use Rattle.macro_code.specs.ReadText.{follows, last_of};

/// A number is above the last one before it.
pub fn follows(last: Option<u32>, number: u32) -> bool
    ensures { result ≡ follows last number }
{
    match last {
        Some(last) => last < number,
        None => true,
    }
}

/// A number is above the last one of these.
pub fn are_followed_by(numbers: &[u32], number: u32) -> bool
    ensures { result ≡ follows (last_of numbers.now) number }
{
    follows(numbers.last().copied(), number)
}
