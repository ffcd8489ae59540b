//! Which pipelines a search tries for a short period.
use crate::annealing::Best;
use crate::depth_first::depth_first;
use crate::ranks::{by_rank, ranks};
use crate::stages::Pipeline;
use plan_costs::{Judge, Plan, Tables};
use std::alloc::Global;
use syn_base::OutOfMemory;

/// How many eighths of an equal part the stages of pipelines have.
const EIGHTHS: [u64; 3] = [8, 9, 10];

/// Tries pipelines of all numbers of stages, on operators from each one on.
pub(crate) fn try_pipelines(
    alloc: Global,
    tables: &Tables,
    judge: &mut Judge,
    best: &mut Best,
) -> Result<(), OutOfMemory> {
    let mut plan = Plan::new(alloc, tables.operations as usize)?;
    let given = Vec::from_slice(alloc, best.plan.order.as_slice())?;
    let ranks = ranks(alloc, tables, given.as_slice(), 4)?;
    let ranked = by_rank(alloc, ranks.as_slice(), given.as_slice())?;
    let deep = depth_first(alloc, tables, given.as_slice())?;
    for order in [&given, &ranked, &deep] {
        try_splits(tables, order.as_slice(), &mut plan, judge, best);
    }
    Ok(())
}

/// Tries the pipelines of an order.
fn try_splits(tables: &Tables, order: &[u32], plan: &mut Plan, judge: &mut Judge, best: &mut Best) {
    let operators = tables.stands.operators();
    for number in 0..operators.saturating_mul(operators) {
        let first = number % operators.max(1);
        let stages = (number / operators.max(1)).saturating_add(1);
        for eighths in EIGHTHS {
            Pipeline::new(tables, first, stages, eighths).split(tables, order, plan);
            best.note(plan, judge.cost(tables, plan));
        }
    }
}
