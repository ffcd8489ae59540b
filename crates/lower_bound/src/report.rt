//! The report of a schedule.
ghost use Rattle.std.specs.Prelude.{◌≡◌, IfOk, IsTrue};
ghost use Rattle.self_timed.specs.Fitting.{IsOf};
ghost use Rattle.self_timed.specs.Table.{entry_in};
ghost use Rattle.self_timed.specs.ScheduleValid.{is_valid};
ghost use Rattle.lower_bound.specs.Numbers.{report};

use crate::alone::{Alone, all_alone};
use crate::bound::lower_bound;
use crate::loads::{Load, medium_loads, operator_loads};
use crate::ratio::{Ratio, ratio_of};
use self_timed::{Archi, Durations, Flat, Schedule};
use std::alloc::Global;
use syn_base::{Items, OutOfMemory};

/// The numbers of a schedule. Operators and media are numbered as in the architecture.
#[derive(Drop)]
pub struct Report {
    pub length: u64,
    pub operators: Items<Load>,
    pub media: Items<Load>,
    /// By operator how long all operations last on it alone, where all of them may stand there.
    pub alone: Items<Option<Alone>>,
    /// No valid schedule is shorter.
    pub bound: u64,
    /// How often the bound is in the length: how far the schedule is at most from the best one.
    pub above: Ratio,
}

/// The numbers of a valid schedule.
pub fn report_of(
    alloc: Global,
    flat: &Flat,
    archi: &Archi,
    durations: &Durations,
    schedule: &Schedule,
) -> Result<Report, OutOfMemory>
    requires fits { IsOf flat.now archi.now durations.now }
    requires valid { IsTrue (is_valid flat.now archi.now (entry_in durations.now) schedule.now) }
    ensures { IfOk result (λ r. r ≡ report flat.now archi.now (entry_in durations.now) schedule.now) }
{
    // The proof takes from this call that the flat graph is valid.
    let _vertices = flat.vertices();
    let length = schedule.length();
    let operators = operator_loads(alloc, schedule, archi.operators().len())?;
    let media = medium_loads(alloc, schedule, archi.media().len())?;
    let alone = all_alone(alloc, durations, length)?;
    let bound = lower_bound(alloc, flat, archi, durations)?;
    let above = ratio_of(length, bound);
    Ok(Report {
        length,
        operators,
        media,
        alone,
        bound,
        above,
    })
}
