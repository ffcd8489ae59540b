//! The text of the dates under given ticks: `dates_text`, which the command `dates` calls.
ghost use Rattle.std.specs.Prelude.{◌≡◌, ◌≤◌, IfOk, length, replicate};
ghost use Rattle.self_timed.specs.Acts.{acts};
ghost use Rattle.self_timed.specs.Built.{program_of};
ghost use Rattle.self_timed.specs.Entries.{AreWithin};
ghost use Rattle.self_timed.specs.Told.{HaveEntries, IsValidForSome, entries_of};
ghost use Rattle.dates_text.specs.Listing.{all_dates, dated_text};

use crate::listing::text_of_dates;
use self_timed::{Actual, Archi, Flat, Program, Schedule, dates_of};
use std::alloc::Global;
use syn_base::OutOfMemory;

/// This many reactions that last these ticks each.
pub fn repeated(alloc: Global, ticks: &[u64], reactions: usize) -> Result<Actual, OutOfMemory>
    ensures { IfOk result (λ actual. actual ≡ replicate reactions ticks.now) }
{
    let mut actual = Actual::new(alloc);
    for _ in 0..reactions {
        actual.push(ticks)?;
    }
    Ok(actual)
}

/// The text of the dates of a schedule whose reactions last these ticks: as `text_of_dates` tells the dates that
/// `dates_of` computes. The schedule is valid for some durations, `program` is its program, and no entry lasts
/// longer than stated.
pub fn dates_text(
    alloc: Global,
    flat: &Flat,
    archi: &Archi,
    schedule: &Schedule,
    program: &Program,
    actual: &Actual,
) -> Result<Vec<u8>, OutOfMemory>
    requires valid { IsValidForSome flat.now archi.now schedule.now }
    requires program { program.now ≡ program_of flat.now archi.now schedule.now }
    requires few { length actual.now ≤ 1000 }
    requires entries { HaveEntries (entries_of flat.now schedule.now) actual.now }
    requires within { AreWithin flat.now.vertices (acts schedule.now) actual.now }
    ensures { IfOk result (λ text. text.items ≡
        dated_text flat.now archi.now (all_dates flat.now archi.now schedule.now actual.now)) }
{
    let dates = dates_of(alloc, flat, archi, schedule, program, actual)?;
    text_of_dates(alloc, flat, archi, schedule, &dates)
}
