//! The groups of operators on which lists are tried.
use crate::listing::bit;
use archi_graph::Medium;
use plan_costs::{Tables, date_at};
use std::alloc::Global;
use syn_base::OutOfMemory;

/// The groups of operators, as bits: all, the fastest ones, those that are nearest to each one, and each two
/// at the same medium.
pub(crate) fn groups(
    alloc: Global,
    tables: &Tables,
    media: &[Medium],
) -> Result<Vec<u32>, OutOfMemory> {
    let mut groups = Vec::new(alloc);
    let fastest = by_pace(alloc, tables)?;
    groups.push(all_of(fastest.as_slice()))?;
    add_firsts(&mut groups, fastest.as_slice())?;
    add_nearest(alloc, tables, &mut groups, fastest.as_slice())?;
    for medium in media {
        add_pairs(&mut groups, medium.stands.as_slice())?;
    }
    Ok(groups)
}

/// The operators, those first on which all operations that may stand there last shortest.
pub(crate) fn by_pace(alloc: Global, tables: &Tables) -> Result<Vec<u32>, OutOfMemory> {
    let mut operators = Vec::new(alloc);
    let mut totals = Vec::new(alloc);
    for operator in 0..tables.stands.operators() {
        operators.push(operator)?;
        totals.push(tables.stands.total_ticks(operator))?;
    }
    operators.sort_by_key(|operator| date_at(totals.as_slice(), *operator))?;
    Ok(operators)
}

/// Adds those that are nearest to each operator, the fastest first among those that are as near.
fn add_nearest(
    alloc: Global,
    tables: &Tables,
    groups: &mut Vec<u32>,
    fastest: &[u32],
) -> Result<(), OutOfMemory> {
    for operator in fastest {
        let mut nearest = Vec::from_slice(alloc, fastest)?;
        nearest.sort_by_key(|other| tables.route(*operator, *other).len())?;
        add_firsts(groups, nearest.as_slice())?;
    }
    Ok(())
}

/// Adds the first of these operators, the first two, and so on.
fn add_firsts(groups: &mut Vec<u32>, operators: &[u32]) -> Result<(), OutOfMemory> {
    let mut firsts = 0u32;
    for operator in operators {
        firsts |= bit(*operator);
        add_once(groups, firsts)?;
    }
    Ok(())
}

/// Adds each two of these operators.
fn add_pairs(groups: &mut Vec<u32>, stands: &[u32]) -> Result<(), OutOfMemory> {
    for (place, operator) in stands.iter().enumerate() {
        add_pairs_of(groups, *operator, &stands[..place])?;
    }
    Ok(())
}

/// Adds this operator with each of the others.
fn add_pairs_of(groups: &mut Vec<u32>, operator: u32, others: &[u32]) -> Result<(), OutOfMemory> {
    for other in others {
        add_once(groups, bit(operator) | bit(*other))?;
    }
    Ok(())
}

/// Adds a group, unless it is there.
fn add_once(groups: &mut Vec<u32>, group: u32) -> Result<(), OutOfMemory> {
    if !groups.as_slice().contains(&group) {
        groups.push(group)?;
    }
    Ok(())
}

/// These operators, as bits.
fn all_of(operators: &[u32]) -> u32 {
    let mut all = 0u32;
    for operator in operators {
        all |= bit(*operator);
    }
    all
}
