//! The check of how many flat operations the main graph stands for, the last of all.
ghost use Rattle.std.specs.Prelude.{◌≡◌, ◌+◌, ◌<◌, ◌≤◌, IfOk, Some, codes, length, replicate, slice_get, slice_index};
ghost use Rattle.std.specs.List.{All, position_or_len, sum_by};
ghost use Rattle.std.specs.Str.{bytes_eq};
ghost use Rattle.algo_rules.specs.Placed.{Checks};
ghost use Rattle.algo_rules.specs.Resolved.{operations, too_many, vertices_of_line};
ghost use Rattle.algo_rules.specs.WellRead.{IsWellRead};
ghost use Rattle.algo_check.specs.Counts.{AreCounts, count_here, next_from, row};
ghost use Rattle.algo_check.specs.Leveled.{AreLeveled};

use crate::levels::Levels;
use algo_rules::{AlgoError, Body, Def, Frontier, FrontierLine};
use std::alloc::Global;
use syn_base::{LimitFault, LimitKind, OutOfMemory};

/// Checks that the main graph stands for at most 2,048 flat operations; the limit tells their number.
pub fn check_operations(alloc: Global, defs: &[Def], levels: &Levels) -> Result<(), AlgoError>
    requires read { All (λ d. IsWellRead d.body) defs.now }
    requires leveled { AreLeveled defs.now levels.now.links levels.now.depths }
    ensures { Checks result (too_many defs.now) }
{
    let count = operations(alloc, defs, levels)?;
    check_count(defs, count)
}

/// Checks that this number of flat operations is within the limit.
fn check_count(defs: &[Def], count: u128) -> Result<(), AlgoError>
    requires { count ≡ operations defs.now }
    ensures { Checks result (too_many defs.now) }
{
    if count > 2048 {
        return Err(AlgoError::Limit(LimitFault {
            which: LimitKind::Operations,
            count,
            bound: LimitKind::Operations.bound(),
        }));
    }
    Ok(())
}

/// The number of flat operations of the main graph, 0 where there is none.
fn operations(alloc: Global, defs: &[Def], levels: &Levels) -> Result<u128, OutOfMemory>
    requires read { All (λ d. IsWellRead d.body) defs.now }
    requires leveled { AreLeveled defs.now levels.now.links levels.now.depths }
    ensures { IfOk result (λ n. n ≡ operations defs.now) }
{
    let counts = all_counts(alloc, defs, levels)?;
    Ok(main_count(defs, &counts))
}

/// The count of the main graph, 0 where there is none.
fn main_count(defs: &[Def], counts: &[u128]) -> u128
    requires { AreCounts defs.now 8 counts.now }
    ensures { result ≡ operations defs.now }
{
    let place = main_place(defs);
    if place < counts.len() {
        counts[place]
    } else {
        0
    }
}

/// The place of the definition of `main`, or how many definitions there are.
fn main_place(defs: &[Def]) -> usize
    ensures { result ≡ position_or_len (λ d. bytes_eq (codes "main") d.name) defs.now }
{
    for (place, def) in defs.iter().enumerate() {
        if b"main".as_slice() == def.name.as_bytes() {
            return place;
        }
    }
    defs.len()
}

/// The counts of all definitions. Since no depth is above 8, eight rounds are enough.
fn all_counts(alloc: Global, defs: &[Def], levels: &Levels) -> Result<Vec<u128>, OutOfMemory>
    requires read { All (λ d. IsWellRead d.body) defs.now }
    requires leveled { AreLeveled defs.now levels.now.links levels.now.depths }
    ensures { IfOk result (λ counts. AreCounts defs.now 8 counts.items) }
{
    let mut counts = no_counts(alloc, defs.len())?;
    for _ in 0..8u32 {
        counts = next_counts(alloc, defs, levels, &counts)?;
    }
    Ok(counts)
}

/// The counts before the first round: each is 0.
fn no_counts(alloc: Global, count: usize) -> Result<Vec<u128>, OutOfMemory>
    ensures { IfOk result (λ counts. counts.items ≡ replicate count 0) }
{
    Ok(vec![in alloc; 0; count]?)
}

/// The count of each definition, by these counts of those that it names.
fn next_counts(
    alloc: Global,
    defs: &[Def],
    levels: &Levels,
    counts: &[u128],
) -> Result<Vec<u128>, OutOfMemory>
    requires read { All (λ d. IsWellRead d.body) defs.now }
    requires leveled { AreLeveled defs.now levels.now.links levels.now.depths }
    requires rows { length counts.now ≡ length defs.now }
    requires bounded { All (λ n. n ≤ 12800000000000000) counts.now }
    ensures { IfOk result (λ next. next.items ≡ next_from defs.now counts.now 0 defs.now) }
{
    let mut next = Vec::new(alloc);
    for (place, def) in defs.iter().enumerate() {
        next.push(count_at(defs, levels, counts, place, def))?;
    }
    Ok(next)
}

/// The count of the definition at a place.
fn count_at(defs: &[Def], levels: &Levels, counts: &[u128], place: usize, def: &Def) -> u128
    requires read { IsWellRead def.now.body }
    requires leveled { AreLeveled defs.now levels.now.links levels.now.depths }
    requires rows { length counts.now ≡ length defs.now }
    requires bounded { All (λ n. n ≤ 12800000000000000) counts.now }
    requires there { slice_get defs.now place ≡ Some def.now }
    ensures { result ≡ count_here (sum_by (slice_index counts.now) (row defs.now place)) def.now.body }
{
    let places = levels.links.as_slice()[place].as_slice();
    count_of(&def.body, count_in_all(counts, places))
}

/// The counts at these places together.
fn count_in_all(counts: &[u128], places: &[u32]) -> u128
    requires places { All (λ p. p < length counts.now) places.now }
    requires few { length places.now ≤ 65 }
    requires bounded { All (λ n. n ≤ 12800000000000000) counts.now }
    ensures sum { result ≡ sum_by (slice_index counts.now) places.now }
    ensures bounded { result ≤ 832000000000000000 }
{
    let mut total = 0;
    for place in places {
        total += counts[*place as usize];
    }
    total
}

/// The count of a definition whose inner ones have this count together: a delay stands for two operations for each
/// reaction that it looks back, a switch for a merge of each output besides, and a repetition for its copies, with an
/// explode or an implode of each fork or join line.
fn count_of(body: &Body, inner: u128) -> u128
    requires read { IsWellRead body.now }
    requires bounded { inner ≤ 832000000000000000 }
    ensures { result ≡ count_here inner body.now }
{
    match body {
        Body::Delay(depth, _) => 2 * u128::from(*depth),
        Body::Graph { .. } => inner,
        Body::Switch { outs, .. } => inner + outs.as_slice().len() as u128,
        Body::Repeat { copies, lines, .. } => {
            u128::from(*copies) * inner + count_forks(lines.as_slice())
        }
        _ => 1,
    }
}

/// How many of the lines of a repetition are fork or join lines.
pub fn count_forks(lines: &[FrontierLine]) -> u128
    requires { length lines.now ≤ 64 }
    ensures count { result ≡ sum_by vertices_of_line lines.now }
    ensures few { result ≤ 64 }
{
    let mut total = 0;
    for line in lines {
        total += forks_of(line);
    }
    total
}

/// How many fork or join lines a line is: 1 or 0.
fn forks_of(line: &FrontierLine) -> u128
    ensures is { result ≡ vertices_of_line line.now }
    ensures one { result ≤ 1 }
{
    match &line.frontier {
        Frontier::Fork { .. } | Frontier::Join { .. } => 1,
        Frontier::Diffuse { .. } | Frontier::Iterate { .. } => 0,
    }
}
