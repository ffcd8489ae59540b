//! The exact rate over a table of arcs: from no ticks on, each cycle that is over the rate gives a
//! higher one, until offsets fit.
ghost use Rattle.std.specs.Prelude.{◌^◌, ◌<◌, ◌≤◌, IfOk, length};
ghost use Rattle.std.specs.Int.{IsGcd};
ghost use Rattle.rates.specs.ExactRates.{IsExactIn, IsRateOver};
ghost use Rattle.rates.specs.Rates.{lags, length_over};
ghost use Rattle.rates.specs.Search.{IsSearchable};
ghost use Rattle.rates.specs.Tables.{at};

use crate::check::{lags_over, ticks_over};
use crate::search::{Found, fit};
use crate::table::{Arc, Arcs, Rate};
use std::alloc::Global;
use syn_base::{Items, OutOfMemory};

/// An exact rate in lowest terms, offsets that fit it, and a cycle from an act that is critical for
/// it. A rate of no ticks needs no cycle, and has none.
#[derive(Drop)]
pub struct ExactRate {
    pub rate: Rate,
    pub offsets: Items<u128>,
    pub act: u32,
    pub way: Items<Arc>,
}

/// The exact rate of the acts of a table, if each lasts so many ticks, by its number, and 0 if the
/// list lacks it. The rates of the cycles that are found on the way rise, and two to five of them
/// are usual.
pub fn rate_of_table(alloc: Global, arcs: &Arcs, long: &[u64]) -> Result<ExactRate, OutOfMemory>
    requires searchable { IsSearchable arcs.now long.now }
    ensures { IfOk result (IsExactIn arcs.now (at long.now)) }
{
    let mut rate = Rate {
        ticks: 0,
        reactions: 1,
    };
    let mut act = 0;
    let mut way = Items::new(Vec::new(alloc));
    loop {
        match fit(alloc, arcs, long, rate)? {
            Found::Fits(offsets) => {
                return Ok(ExactRate {
                    rate,
                    offsets,
                    act,
                    way,
                });
            }
            Found::Over(first, cycle) => {
                rate = rate_over(long, cycle.as_slice());
                act = first;
                way = cycle;
            }
        }
    }
}

/// The rate of a cycle, in lowest terms.
fn rate_over(long: &[u64], way: &[Arc]) -> Rate
    requires few { length way.now ≤ 2 ^ 22 }
    requires short { length_over (at long.now) way.now ≤ 2 ^ 52 }
    requires low { lags way.now ≤ 2 ^ 30 }
    requires later { 0 < lags way.now }
    ensures { IsRateOver (at long.now) way.now result }
{
    let ticks = ticks_over(long, way) as u64;
    let reactions = lags_over(way) as u64;
    let divisor = greatest_divisor(ticks, reactions);
    Rate {
        ticks: ticks / divisor,
        reactions: (reactions / divisor) as u32,
    }
}

/// The greatest number that divides both.
fn greatest_divisor(first: u64, second: u64) -> u64
    ensures { IsGcd first second result }
{
    let mut greater = first;
    let mut less = second;
    while less != 0 {
        let rest = greater % less;
        greater = less;
        less = rest;
    }
    greater
}
