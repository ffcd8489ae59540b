//! The lines of a report on what a schedule that was searched stands beside.
ghost use Rattle.std.specs.Prelude.{◌≡◌, ◌++◌, ◌∷◌, [], OnOk};
ghost use Rattle.timing_chart.specs.Chart.{line_text, text_of};
ghost use Rattle.report_text.specs.Text.{beside_lines, best_alone, best_from, best_lines, run_line};
ghost use Rattle.self_timed.specs.Windows.{lesser_date};

use crate::figures::Pace;
use crate::line::{append_number, append_period_word};
use lower_bound::Alone;
use syn_base::{OutOfMemory, append, append_count};

/// Appends the length and the period of the pressure run, and the time of the operator that is fastest
/// alone, where there is one on which all operations may stand. Nothing is appended where nothing was
/// searched.
pub fn append_beside(
    out: &mut Vec<u8>,
    beside: Option<Pace>,
    alone: &[Option<Alone>],
) -> Result<(), OutOfMemory>
    ensures { OnOk result (out.new.items ≡ out.old.items ++ text_of (beside_lines beside alone.now)) }
{
    match beside {
        Some(run) => append_both(out, run, best_alone(alone)),
        None => Ok(()),
    }
}

/// Appends the line of the pressure run, and that of the best time of an operator alone, if there is one.
fn append_both(out: &mut Vec<u8>, run: Pace, best: Option<u64>) -> Result<(), OutOfMemory>
    ensures { OnOk result (out.new.items ≡ out.old.items ++ text_of (run_line run ∷ best_lines best)) }
{
    append_run(out, run)?;
    match best {
        Some(time) => append_number(out, b"best-alone", time),
        None => Ok(()),
    }
}

/// Appends the line of the pressure run.
fn append_run(out: &mut Vec<u8>, run: Pace) -> Result<(), OutOfMemory>
    ensures { OnOk result (out.new.items ≡ out.old.items ++ line_text (run_line run)) }
{
    append(out, b"pressure-run ")?;
    append_count(out, run.length as usize)?;
    append(out, b" period ")?;
    append_period_word(out, run.period)?;
    append(out, b"\n")
}

/// The least time of an operator alone, if there is one on which all operations may stand.
fn best_alone(alone: &[Option<Alone>]) -> Option<u64>
    ensures { result ≡ best_alone alone.now }
{
    let mut best = None;
    for entry in alone {
        best = better(best, *entry);
    }
    best
}

/// The best time, where one operator more is looked at.
fn better(best: Option<u64>, entry: Option<Alone>) -> Option<u64>
    ensures { result ≡ best_from best (entry ∷ []) }
{
    match entry {
        Some(alone) => Some(sooner(best, alone.time)),
        None => best,
    }
}

/// The less of a time and the best one before it, if there is one.
fn sooner(best: Option<u64>, time: u64) -> u64
    ensures { result ≡ lesser_date best time }
{
    match best {
        Some(least) => least.min(time),
        None => time,
    }
}
