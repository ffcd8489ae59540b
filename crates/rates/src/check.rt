//! The checks of a rate by a certificate: offsets that fit, and a cycle that is critical.
ghost use Rattle.std.specs.Prelude.{◌≡◌, ◌+◌, ◌*◌, ◌^◌, ◌<◌, ◌≤◌, drop, length, nat_le};
ghost use Rattle.std.specs.List.{list_all, sum_by};
ghost use Rattle.rates.specs.Rates.{begin_or, lags, length_over};
ghost use Rattle.rates.specs.Tables.{at, is_critical_in, is_cycle_in, is_way_in, row_fits, rows_fit};

use crate::table::{Arc, Arcs, Rate};

/// Whether the acts sustain the rate with these offsets, if each lasts so many ticks: both by the
/// number of the act, and 0 for those that a list lacks. Offsets are in parts of a tick, of which a
/// tick has as many as the rate has reactions. The time is in proportion to the arcs. It takes no
/// memory.
pub fn is_sustained(arcs: &Arcs, long: &[u64], rate: Rate, offsets: &[u128]) -> bool
    ensures { result ≡ rows_fit (at long.now) rate.ticks rate.reactions (at offsets.now) arcs.now }
{
    let rows = arcs.rows();
    for (act, row) in rows.iter().enumerate() {
        if !row_fits(row.as_slice(), act, long, rate, offsets) {
            return false;
        }
    }
    true
}

/// Whether the act with these arcs fits with its offset.
fn row_fits(row: &[Arc], act: usize, long: &[u64], rate: Rate, offsets: &[u128]) -> bool
    ensures { result ≡
        row_fits (at long.now) rate.ticks rate.reactions (at offsets.now) act row.now }
{
    let needed = rate.reactions as u128 * ticks_of(long, act) as u128;
    let offset = offset_of(offsets, act);
    needed <= offset && all_have_room(row, needed, offset, rate.ticks, offsets)
}

/// Whether an act that needs so many parts of a tick has room after each act to which these arcs
/// lead.
fn all_have_room(row: &[Arc], needed: u128, offset: u128, ticks: u64, offsets: &[u128]) -> bool
    ensures { result ≡ list_all
        (λ a. nat_le (at offsets.now a.act + needed) (offset + a.lag * ticks)) row.now }
{
    for arc in row {
        let before = offset_of(offsets, arc.act as usize);
        if !has_room(before, needed, offset, arc.lag as u128 * ticks as u128) {
            return false;
        }
    }
    true
}

/// Whether the first two together are at most the last two together. The sums may be above the
/// word.
pub(crate) fn has_room(before: u128, needed: u128, offset: u128, later: u128) -> bool
    ensures { result ≡ nat_le (before + needed) (offset + later) }
{
    if needed <= later {
        before <= offset || before - offset <= later - needed
    } else {
        before <= offset && needed - later <= offset - before
    }
}

/// How many ticks the act lasts, 0 if the list lacks it.
pub(crate) fn ticks_of(long: &[u64], act: usize) -> u64
    ensures { result ≡ at long.now act }
{
    if act < long.len() { long[act] } else { 0 }
}

/// The offset of the act, 0 if the list lacks it.
pub(crate) fn offset_of(offsets: &[u128], act: usize) -> u128
    ensures { result ≡ at offsets.now act }
{
    if act < offsets.len() { offsets[act] } else { 0 }
}

/// Whether these arcs are a cycle from the act that is critical at the rate, if each act lasts so
/// many ticks: by its number, and 0 for those that the list lacks. The time is in proportion to the
/// way and the rows of its acts. It takes no memory.
pub fn is_critical_cycle(arcs: &Arcs, long: &[u64], rate: Rate, act: u32, way: &[Arc]) -> bool
    requires few { length way.now < 2 ^ 32 }
    ensures { result ≡ is_critical_in arcs.now (at long.now) rate.ticks rate.reactions act way.now }
{
    is_cycle(arcs, act, way)
        && rate.reactions as u128 * ticks_over(long, way) == rate.ticks as u128 * lags_over(way)
}

/// Whether these arcs are a cycle from the act.
fn is_cycle(arcs: &Arcs, act: u32, way: &[Arc]) -> bool
    requires few { length way.now < 2 ^ 32 }
    ensures { result ≡ is_cycle_in arcs.now act way.now }
{
    begin_at(way, 0, act) == act && is_way(arcs, act, way) && 1 <= lags_over(way)
}

/// Whether these arcs are a way to the act.
fn is_way(arcs: &Arcs, act: u32, way: &[Arc]) -> bool
    ensures { result ≡ is_way_in arcs.now act way.now }
{
    for (place, arc) in way.iter().enumerate() {
        if !arcs.has(begin_at(way, place + 1, act), *arc) {
            return false;
        }
    }
    true
}

/// The act to which the arc at this place leads, this act if there is none.
fn begin_at(way: &[Arc], place: usize, act: u32) -> u32
    ensures { result ≡ begin_or act (drop place way.now) }
{
    if place < way.len() {
        way[place].act
    } else {
        act
    }
}

/// How many ticks the acts to which these arcs lead last together.
pub(crate) fn ticks_over(long: &[u64], way: &[Arc]) -> u128
    requires few { length way.now < 2 ^ 32 }
    ensures value { result ≡ length_over (at long.now) way.now }
    ensures bound { result < 2 ^ 96 }
{
    let mut total = 0u128;
    for arc in way {
        total += ticks_of(long, arc.act as usize) as u128;
    }
    total
}

/// The number of reactions over which these arcs lead together.
pub(crate) fn lags_over(way: &[Arc]) -> u128
    requires few { length way.now < 2 ^ 32 }
    ensures value { result ≡ lags way.now }
    ensures bound { result < 2 ^ 64 }
{
    let mut total = 0u128;
    for arc in way {
        total += arc.lag as u128;
    }
    total
}
