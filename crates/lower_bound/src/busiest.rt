//! The busiest line of a report.
ghost use Rattle.std.specs.Prelude.{◌≡◌, ◌≤◌, IsTrue, length};
ghost use Rattle.self_timed.specs.Fitting.{IsOf};
ghost use Rattle.self_timed.specs.Table.{entry_in};
ghost use Rattle.self_timed.specs.ScheduleValid.{is_valid};
ghost use Rattle.lower_bound.specs.Numbers.{report};
ghost use Rattle.lower_bound.specs.declared.busiest.Line.TheVariants.{Medium, Operator};
ghost use Rattle.lower_bound.specs.Busiest.{busier, busiest, longest_busy};

use crate::loads::Load;
use crate::ratio::{Ratio, ratio_of};
use crate::report::Report;
use self_timed::{Archi, Durations, Flat, Period, Schedule};

/// An operator or a medium, by number.
#[derive(Clone, Copy, Debug, PartialEq, Eq)]
pub enum Line {
    Operator(u32),
    Medium(u32),
}

/// A line, and for how many ticks of a reaction it is busy.
#[derive(Clone, Copy, Debug, PartialEq, Eq)]
struct Busy {
    line: Line,
    ticks: u64,
}

/// A line, and for which share of a period it is busy.
#[derive(Clone, Copy, Debug, PartialEq, Eq)]
pub struct Busiest {
    pub line: Line,
    pub share: Ratio,
}

/// The first operator, or else medium, that is busy for longest in a reaction of a valid schedule, by its
/// numbers, and its share of the period. It takes no memory.
pub fn busiest_line(
    flat: &Flat,
    archi: &Archi,
    durations: &Durations,
    schedule: &Schedule,
    numbers: &Report,
    period: Period,
) -> Busiest
    requires fits { IsOf flat.now archi.now durations.now }
    requires valid { IsTrue (is_valid flat.now archi.now (entry_in durations.now) schedule.now) }
    requires report { numbers.now ≡ report flat.now archi.now (entry_in durations.now) schedule.now }
    requires few { period.reactions ≤ 1000 }
    ensures { result ≡ busiest numbers.now period }
{
    // The proof takes from these calls what they keep: few operators and media, and short durations.
    let _vertices = flat.vertices();
    let _operators = archi.operators();
    let _operations = durations.operations();
    let most = longest_busy(numbers);
    Busiest {
        line: most.line,
        share: ratio_of(most.ticks * period.reactions, period.ticks),
    }
}

/// The line of a report that is busy for longest.
fn longest_busy(report: &Report) -> Busy
    requires operators { length report.now.operators ≤ 16 }
    requires media { length report.now.media ≤ 16 }
    ensures { result ≡ longest_busy report.now.operators report.now.media }
{
    let none = Busy {
        line: Line::Operator(0),
        ticks: 0,
    };
    let most = busier_operator(none, report.operators.as_slice());
    busier_medium(most, report.media.as_slice())
}

/// The first operator that is busy for longest, where it is busy for longer than this line.
fn busier_operator(best: Busy, loads: &[Load]) -> Busy
    requires { length loads.now ≤ 16 }
    ensures { result ≡ busier best Operator 0 loads.now }
{
    let mut best = best;
    for (number, load) in loads.iter().enumerate() {
        if best.ticks < load.busy {
            best = Busy {
                line: Line::Operator(number as u32),
                ticks: load.busy,
            };
        }
    }
    best
}

/// The first medium that is busy for longest, where it is busy for longer than this line.
fn busier_medium(best: Busy, loads: &[Load]) -> Busy
    requires { length loads.now ≤ 16 }
    ensures { result ≡ busier best Medium 0 loads.now }
{
    let mut best = best;
    for (number, load) in loads.iter().enumerate() {
        if best.ticks < load.busy {
            best = Busy {
                line: Line::Medium(number as u32),
                ticks: load.busy,
            };
        }
    }
    best
}
