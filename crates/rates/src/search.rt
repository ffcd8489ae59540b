//! The search for offsets that fit a rate: of each act an offset so far, which rises as long as an
//! arc has no room. An arc that gives an act its next offset while the act lies on the way back from
//! there closes a cycle that is over the rate.
ghost use Rattle.std.specs.Prelude.{◌≡◌, ◌+◌, ◌*◌, ◌^◌, ◌≤◌, IfNone, IfOk, IfSome, None, length, replicate, true};
ghost use Rattle.std.specs.List.{list_all};
ghost use Rattle.rates.specs.Rates.{has_room};
ghost use Rattle.rates.specs.Search.{Closes, HaveRoomFrom, IsFit, IsRooted, IsSearchable, Lacks, LacksIn, Misses, given_at, AreFirst};
ghost use Rattle.rates.specs.Tables.{at};

use crate::check::{has_room, offset_of, ticks_of};
use crate::table::{Arc, Arcs, Rate};
use std::alloc::Global;
use syn_base::{Items, OutOfMemory};

/// An act that has no room after the act to which this arc of it leads.
#[derive(Clone, Copy)]
pub(crate) struct Lacking {
    pub act: usize,
    pub arc: Arc,
}

/// What a search finds: offsets that fit the rate, or a cycle from an act that is over it.
#[derive(Drop)]
pub(crate) enum Found {
    Fits(Items<u128>),
    Over(u32, Items<Arc>),
}

/// Offsets that fit the rate, or a cycle that is over it, if each act lasts so many ticks. Each turn
/// raises one offset, and goes on at the act where it is; the rows in their order settle the arcs
/// of one reaction at once, since these lead to acts before.
pub(crate) fn fit(
    alloc: Global,
    arcs: &Arcs,
    long: &[u64],
    rate: Rate,
) -> Result<Found, OutOfMemory>
    requires searchable { IsSearchable arcs.now long.now }
    requires low { rate.reactions ≤ 2 ^ 30 }
    ensures { IfOk result (IsFit arcs.now long.now rate) }
{
    let count = arcs.rows().len();
    let mut offsets = first_offsets(alloc, long, rate.reactions, count)?;
    let mut given = no_arcs(alloc, count)?;
    let mut from = 0;
    while let Some(lacking) = next_lacking(arcs, long, rate, offsets.as_slice(), from) {
        if let Some(cycle) = closed_cycle(alloc, given.as_slice(), lacking)? {
            return Ok(Found::Over(lacking.act as u32, cycle));
        }
        offsets[lacking.act] = next_offset(offsets.as_slice(), long, rate, lacking);
        given[lacking.act] = Some(lacking.arc);
        from = lacking.act;
    }
    Ok(Found::Fits(Items::new(offsets)))
}

/// The first offset of each act: its end if it waits for nothing.
fn first_offsets(
    alloc: Global,
    long: &[u64],
    reactions: u32,
    count: usize,
) -> Result<Vec<u128>, OutOfMemory>
    ensures { IfOk result (λ v. AreFirst long.now reactions count v.items) }
{
    let mut offsets = Vec::with_capacity(alloc, count)?;
    for act in 0..count {
        offsets.push(reactions as u128 * ticks_of(long, act) as u128)?;
    }
    Ok(offsets)
}

/// No arc for each act.
fn no_arcs(alloc: Global, count: usize) -> Result<Vec<Option<Arc>>, OutOfMemory>
    ensures { IfOk result (λ v. v.items ≡ replicate count None) }
{
    let mut given = Vec::with_capacity(alloc, count)?;
    for _act in 0..count {
        given.push(None)?;
    }
    Ok(given)
}

/// An act without room, if there is one: the next one from this act on, and otherwise the first.
fn next_lacking(
    arcs: &Arcs,
    long: &[u64],
    rate: Rate,
    offsets: &[u128],
    from: usize,
) -> Option<Lacking>
    ensures none { IfNone result (HaveRoomFrom arcs.now long.now rate offsets.now 0) }
    ensures some { IfSome result (Lacks arcs.now long.now rate offsets.now) }
{
    match lacking_from(arcs, long, rate, offsets, from) {
        Some(lacking) => Some(lacking),
        None => lacking_from(arcs, long, rate, offsets, 0),
    }
}

/// The first act without room from this act on.
fn lacking_from(
    arcs: &Arcs,
    long: &[u64],
    rate: Rate,
    offsets: &[u128],
    from: usize,
) -> Option<Lacking>
    ensures none { IfNone result (HaveRoomFrom arcs.now long.now rate offsets.now from) }
    ensures some { IfSome result (Lacks arcs.now long.now rate offsets.now) }
{
    let rows = arcs.rows();
    for act in from..rows.len() {
        if let Some(arc) = lacking_arc(rows[act].as_slice(), act, long, rate, offsets) {
            return Some(Lacking { act, arc });
        }
    }
    None
}

/// The first of these arcs of the act after which it has no room.
fn lacking_arc(row: &[Arc], act: usize, long: &[u64], rate: Rate, offsets: &[u128]) -> Option<Arc>
    ensures none { IfNone result (list_all
        (has_room (at long.now) rate.ticks rate.reactions (at offsets.now) act) row.now ≡ true) }
    ensures some { IfSome result (LacksIn row.now act long.now rate offsets.now) }
{
    let needed = rate.reactions as u128 * ticks_of(long, act) as u128;
    let offset = offset_of(offsets, act);
    for arc in row {
        let before = offset_of(offsets, arc.act as usize);
        if !has_room(before, needed, offset, arc.lag as u128 * rate.ticks as u128) {
            return Some(*arc);
        }
    }
    None
}

/// The offset with which the lacking act has just room.
fn next_offset(offsets: &[u128], long: &[u64], rate: Rate, lacking: Lacking) -> u128
    requires over { at offsets.now lacking.act + lacking.arc.lag * rate.ticks
        ≤ at offsets.now lacking.arc.act + rate.reactions * at long.now lacking.act }
    requires low { at offsets.now lacking.arc.act ≤ 2 ^ 96 }
    ensures { result + lacking.arc.lag * rate.ticks
        ≡ at offsets.now lacking.arc.act + rate.reactions * at long.now lacking.act }
{
    let needed = rate.reactions as u128 * ticks_of(long, lacking.act) as u128;
    let before = offset_of(offsets, lacking.arc.act as usize);
    before + needed - lacking.arc.lag as u128 * rate.ticks as u128
}

/// The cycle that the lacking arc closes, if it closes one with the arcs that gave offsets.
fn closed_cycle(
    alloc: Global,
    given: &[Option<Arc>],
    lacking: Lacking,
) -> Result<Option<Items<Arc>>, OutOfMemory>
    requires rooted { IsRooted (given_at given.now) (length given.now) lacking.arc.act }
    ensures none { IfOk result (λ o. IfNone o (Misses given.now lacking)) }
    ensures some { IfOk result (λ o. IfSome o (Closes given.now lacking)) }
{
    let mut way = Vec::new(alloc);
    let mut arc = lacking.arc;
    for _step in 0..given.len() {
        way.push(arc)?;
        if arc.act as usize == lacking.act {
            way.reverse();
            return Ok(Some(Items::new(way)));
        }
        match given_of(given, arc.act) {
            Some(next) => arc = next,
            None => return Ok(None),
        }
    }
    Ok(None)
}

/// The arc that gave the act its offset, if there is one.
fn given_of(given: &[Option<Arc>], act: u32) -> Option<Arc>
    ensures { result ≡ given_at given.now act }
{
    let act = act as usize;
    if act < given.len() { given[act] } else { None }
}
