//! The period of given dates.
ghost use Rattle.std.specs.Prelude.{◌≡◌, ◌≤◌, length, take};
ghost use Rattle.self_timed.specs.Period.{all_done, period_in, row_end};

use crate::dates::{Dates, Span};

/// How long the last half of some reactions takes: so many ticks pass from when the others are done
/// until these reactions are done too.
#[derive(Clone, Copy, Debug, PartialEq, Eq)]
pub struct Period {
    pub ticks: u64,
    pub reactions: u64,
}

/// The period over the reactions of these dates. It takes no memory.
pub fn period_of(dates: &Dates) -> Period
    ensures { result ≡ period_in dates.now }
{
    let count = dates.reactions();
    let first = count / 2;
    let done = done_by(dates, count);
    Period {
        ticks: done.saturating_sub(done_by(dates, first)),
        reactions: (count - first) as u64,
    }
}

/// When this many reactions are done, 0 where there is none.
fn done_by(dates: &Dates, reactions: usize) -> u64
    requires { reactions ≤ length dates.now }
    ensures { result ≡ all_done (take reactions dates.now) }
{
    let mut done = 0;
    for reaction in 0..reactions {
        done = row_end(dates.row(reaction)).max(done);
    }
    done
}

/// The greatest end of these spans, 0 where there is none.
fn row_end(row: &[Span]) -> u64
    ensures { result ≡ row_end row.now }
{
    let mut latest = 0;
    for span in row {
        latest = span.end.max(latest);
    }
    latest
}
