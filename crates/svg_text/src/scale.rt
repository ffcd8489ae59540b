//! How dates become places, and where a label fits.
ghost use Rattle.std.specs.Prelude.{◌≡◌, ◌≤◌, ◌*◌};
ghost use Rattle.svg_text.specs.Scale.{first_from, fits, middle, place, step_of, steps_of, width_for};

/// How far apart the dates at an axis may stand.
pub const STEPS: [u64; 36] = [
    1,
    2,
    5,
    10,
    20,
    50,
    100,
    200,
    500,
    1000,
    2000,
    5000,
    10000,
    20000,
    50000,
    100000,
    200000,
    500000,
    1000000,
    2000000,
    5000000,
    10000000,
    20000000,
    50000000,
    100000000,
    200000000,
    500000000,
    1000000000,
    2000000000,
    5000000000,
    10000000000,
    20000000000,
    50000000000,
    100000000000,
    200000000000,
    500000000000,
];

/// A scale from dates to places: the length, in ticks, takes the whole width.
#[derive(Clone, Copy, Debug, PartialEq, Eq)]
pub struct Scale {
    pub width: u64,
    pub length: u64,
}

impl Scale {
    ghost use Rattle.std.specs.Prelude.{◌≡◌, ◌+◌, ◌≤◌, ◌<◌, ◌*◌};
    ghost use Rattle.svg_text.specs.Scale.{place, step_of, steps_of};

    /// The place of a date. What is past the length stands at its end.
    pub fn place(self, date: u64) -> u64
        ensures place { result ≡ place self date }
        ensures within { result ≤ self.width }
    {
        let date = date.min(self.length) as u128;
        (self.width as u128 * date / self.length.max(1) as u128) as u64
    }

    /// How far apart the dates at the axis stand: 1, 2, 5, 10 ticks and so on.
    pub fn step(self) -> u64
        ensures step { result ≡ step_of self }
        ensures some { 1 ≤ result }
    {
        step_from(self.length / (self.width / 100 + 2) + 1, &STEPS)
    }

    /// How many dates stand at the axis beside 0.
    pub fn steps(self) -> u64
        ensures steps { result ≡ steps_of self }
        ensures within { result * step_of self ≤ self.length }
    {
        self.length / self.step()
    }

    /// The date at the axis after this many others beside 0.
    pub fn date(self, number: u64) -> u64
        requires { number < steps_of self }
        ensures { result ≡ (number + 1) * step_of self }
    {
        (number + 1) * self.step()
    }
}

/// The first of these steps that is at least n, or else n.
fn step_from(n: u64, steps: &[u64]) -> u64
    ensures first { result ≡ first_from n steps.now }
    ensures least { n ≤ result }
{
    for step in steps {
        if n <= *step {
            return *step;
        }
    }
    n
}

/// Whether a text of this many bytes fits between two places.
pub fn fits(bytes: usize, left: u64, right: u64) -> bool
    ensures { result ≡ fits bytes left right }
{
    (bytes as u64) < right.saturating_sub(left) / 7
}

/// The middle of two places.
pub fn middle(left: u64, right: u64) -> u64
    ensures { result ≡ middle left right }
{
    left + right.saturating_sub(left) / 2
}

/// The width of a picture in which this many bars or points are to be seen.
pub fn widened(count: usize) -> u64
    ensures width { result ≡ width_for count }
    ensures narrow { result ≤ 513000 }
{
    1000 * (1 + count.min(65536) as u64 / 128)
}
