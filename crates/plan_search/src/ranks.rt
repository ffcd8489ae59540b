//! Upward ranks: how much follows an operation, with what is carried. By them lists are ordered.
use plan_costs::{Tables, date_at, put_date};
use std::alloc::Global;
use syn_base::OutOfMemory;

/// Parts of a tick in which ranks are counted.
const PARTS: u64 = 64;

/// How much follows each operation, in parts of a tick. What is carried counts this many quarters of its
/// mean time. In the order each operation stands after those it depends on; its rank is less than theirs.
pub(crate) fn ranks(
    alloc: Global,
    tables: &Tables,
    order: &[u32],
    quarters: u64,
) -> Result<Vec<u64>, OutOfMemory> {
    let mut ranks = vec![in alloc; 0; order.len()]?;
    for op in order.iter().rev() {
        let rank = rank_of(tables, &ranks, *op, quarters);
        put_date(ranks.as_mut_slice(), *op, rank);
    }
    Ok(ranks)
}

/// The operations by falling rank, those of equal rank in their old order.
pub(crate) fn by_rank(
    alloc: Global,
    ranks: &[u64],
    order: &[u32],
) -> Result<Vec<u32>, OutOfMemory> {
    let mut ranked = Vec::from_slice(alloc, order)?;
    ranked.sort_by_key(|op| u64::MAX - date_at(ranks, *op))?;
    Ok(ranked)
}

/// The rank of an operation, by those of the operations that depend on it.
fn rank_of(tables: &Tables, ranks: &[u64], op: u32, quarters: u64) -> u64 {
    let mut greatest = 0u64;
    for next in tables.links.after.of(op) {
        let carried = carried_to(tables, op, *next).saturating_mul(quarters) / 4;
        let follows = date_at(ranks, *next).saturating_add(carried.saturating_mul(PARTS));
        greatest = greatest.max(follows);
    }
    let own = tables
        .stands
        .mean_ticks(op)
        .saturating_mul(PARTS)
        .saturating_add(1);
    greatest.saturating_add(own)
}

/// How long the outputs that one operation reads of another are carried in the mean.
fn carried_to(tables: &Tables, op: u32, next: u32) -> u64 {
    let mut total = 0u64;
    for output in tables.links.reads.of(next) {
        if tables.outputs.maker(*output) == op {
            total = total.saturating_add(tables.outputs.mean_time(*output));
        }
    }
    total
}
