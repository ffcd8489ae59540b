//! The proposal: a plan that the search has found. Nothing is said of it, since a draft makes its schedule
//! and refuses what cannot be placed.
use crate::annealing::{Annealing, Best, anneal};
use crate::clusters::Clusters;
use crate::effort::Effort;
use crate::groups::{by_pace, groups};
use crate::homes::Homes;
use crate::listing::list;
use crate::pipelines::try_pipelines;
use crate::random::Chances;
use crate::ranks::{by_rank, ranks};
use plan_costs::{Goal, Judge, Plan, Site, Stand, Tables};
use std::alloc::Global;
use syn_base::OutOfMemory;

/// How many quarters of the mean time of what is carried count in ranks.
const QUARTERS: [u64; 3] = [0, 4, 8];

/// How many quarters of the time of what is carried count as load of the operator of a cluster.
const WEIGHTS: [u64; 3] = [0, 4, 16];

/// A plan that likely costs little by the goal: of the lists, of those by clusters, where the period is to
/// become short of the pipelines too, and of the changes of the best of them.
pub fn propose(site: &Site, start: &[Stand], effort: Effort) -> Result<Vec<Stand>, OutOfMemory> {
    let tables = Tables::new(site)?;
    let mut judge = Judge::new(site.alloc, &tables, effort.goal, site.archi.depth())?;
    let mut best = first(site.alloc, &tables, start, &mut judge)?;
    let tried = try_starts(site, &tables, effort, &mut judge, &mut best)?;
    let left = Effort {
        tries: effort.tries.saturating_sub(tried),
        ..effort
    };
    try_changes(site.alloc, &tables, left, &mut judge, &mut best)?;
    best.plan.stands(site.alloc)
}

/// Tries what changes may begin with. Returns how many tries that were.
fn try_starts(
    site: &Site,
    tables: &Tables,
    effort: Effort,
    judge: &mut Judge,
    best: &mut Best,
) -> Result<u32, OutOfMemory> {
    let most = effort.tries / 4;
    let lists = try_lists(site, tables, most, judge, best)?;
    let clusters = try_clusters(site.alloc, tables, most, judge, best)?;
    if let Goal::Period = effort.goal {
        try_pipelines(site.alloc, tables, judge, best)?;
    }
    Ok(lists.saturating_add(clusters))
}

/// Tries changes of the best plan.
fn try_changes(
    alloc: Global,
    tables: &Tables,
    effort: Effort,
    judge: &mut Judge,
    best: &mut Best,
) -> Result<(), OutOfMemory> {
    let mut annealing = Annealing::new(alloc, tables.operations as usize)?;
    let mut chances = Chances::new(effort.seed);
    anneal(
        tables,
        effort.tries,
        &mut annealing,
        judge,
        &mut chances,
        best,
    );
    Ok(())
}

/// The plan by which a schedule was made, as the best one so far.
fn first(
    alloc: Global,
    tables: &Tables,
    start: &[Stand],
    judge: &mut Judge,
) -> Result<Best, OutOfMemory> {
    let mut plan = Plan::new(alloc, tables.operations as usize)?;
    plan.follow(start);
    let cost = judge.cost(tables, &plan);
    Ok(Best { plan, cost })
}

/// Tries lists over groups of operators, by each order, but only one group more than this many tries
/// admit. Returns how many were tried.
fn try_lists(
    site: &Site,
    tables: &Tables,
    most: u32,
    judge: &mut Judge,
    best: &mut Best,
) -> Result<u32, OutOfMemory> {
    let mut plan = Plan::new(site.alloc, tables.operations as usize)?;
    let orders = orders(site.alloc, tables, best.plan.order.as_slice())?;
    let groups = groups(site.alloc, tables, site.archi.media())?;
    let mut count = 0u32;
    for group in &groups {
        if count == 0 || count < most {
            count = count.saturating_add(try_group(
                tables, &orders, *group, &mut plan, judge, best,
            ));
        }
    }
    Ok(count)
}

/// Tries the lists over a group of operators. Returns how many.
fn try_group(
    tables: &Tables,
    orders: &[Vec<u32>],
    group: u32,
    plan: &mut Plan,
    judge: &mut Judge,
    best: &mut Best,
) -> u32 {
    let mut count = 0u32;
    for order in orders {
        list(tables, order.as_slice(), group, plan, &mut judge.dates);
        best.note(plan, judge.cost(tables, plan));
        count = count.saturating_add(1);
    }
    count
}

/// The operations by falling rank, for each weight of what is carried, those of equal rank in the order of
/// a plan, or by number.
fn orders(alloc: Global, tables: &Tables, given: &[u32]) -> Result<Vec<Vec<u32>>, OutOfMemory> {
    let numbers = by_number(alloc, tables)?;
    let mut orders = Vec::new(alloc);
    for quarters in QUARTERS {
        let ranks = ranks(alloc, tables, given, quarters)?;
        orders.push(by_rank(alloc, ranks.as_slice(), given)?)?;
        orders.push(by_rank(alloc, ranks.as_slice(), numbers.as_slice())?)?;
    }
    Ok(orders)
}

/// The operations by number.
fn by_number(alloc: Global, tables: &Tables) -> Result<Vec<u32>, OutOfMemory> {
    let mut numbers = Vec::with_capacity(alloc, tables.operations as usize)?;
    for op in 0..tables.operations {
        numbers.push(op)?;
    }
    Ok(numbers)
}

/// Tries plans by clusters over the fastest operators, but only one number of them more than this many
/// tries admit. Returns how many were tried.
fn try_clusters(
    alloc: Global,
    tables: &Tables,
    most: u32,
    judge: &mut Judge,
    best: &mut Best,
) -> Result<u32, OutOfMemory> {
    let given = best.plan.order.as_slice();
    let ranks = ranks(alloc, tables, given, 4)?;
    let order = by_rank(alloc, ranks.as_slice(), given)?;
    let clusters = Clusters::new(alloc, tables, order)?;
    let fastest = by_pace(alloc, tables)?;
    let mut count = 0u32;
    for used in 1..=fastest.len() {
        if count == 0 || count < most {
            let operators = &fastest.as_slice()[..used];
            let tried = try_homes(alloc, tables, &clusters, operators, judge, best)?;
            count = count.saturating_add(tried);
        }
    }
    Ok(count)
}

/// Tries plans by clusters over these operators, by each weight of what is carried. Returns how many.
fn try_homes(
    alloc: Global,
    tables: &Tables,
    clusters: &Clusters,
    operators: &[u32],
    judge: &mut Judge,
    best: &mut Best,
) -> Result<u32, OutOfMemory> {
    let mut plan = Plan::new(alloc, tables.operations as usize)?;
    let mut count = 0u32;
    for quarters in WEIGHTS {
        let homes = Homes::new(alloc, tables, clusters, operators, quarters)?;
        homes.fill(tables, &mut plan);
        best.note(&plan, judge.cost(tables, &plan));
        count = count.saturating_add(1);
    }
    Ok(count)
}
