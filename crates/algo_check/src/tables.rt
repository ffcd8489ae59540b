//! The checks of all bodies, depth by depth, with a table of the ports that are known.
ghost use Rattle.std.specs.Prelude.{◌≡◌, ◌+◌, ◌<◌, ◌≤◌, IfOk, None, OnOk, Some, length, map, replicate, slice_get, slice_index_or};
ghost use Rattle.std.specs.List.{All};
ghost use Rattle.algo_rules.specs.Well.{AreDistinctNames};
ghost use Rattle.algo_rules.specs.Links.{first_of};
ghost use Rattle.algo_rules.specs.Placed.{Checks};
ghost use Rattle.algo_rules.specs.Ports.{no_ports, ports_of};
ghost use Rattle.algo_rules.specs.Resolved.{bodies_fault, body_fault, faults_at};
ghost use Rattle.algo_rules.specs.WellRead.{IsWellRead};
ghost use Rattle.algo_check.specs.Leveled.{AreLeveled};
ghost use Rattle.algo_check.specs.Tables.{IsFilling, IsTable};

use crate::bodies::{check_body, no_ports, ports_of_checked};
use crate::levels::Levels;
use algo_rules::{AlgoError, Def, Ports};
use std::alloc::Global;
use syn_base::OutOfMemory;

/// The ports of definitions by place, where every body passes its check; or the first refusal, by depth and then
/// by line.
pub fn ports_of_bodies(
    alloc: Global,
    defs: &[Def],
    levels: &Levels,
) -> Result<Vec<Ports>, AlgoError>
    requires read { All (λ d. IsWellRead d.body) defs.now }
    requires distinct { AreDistinctNames (map (λ d. d.name) defs.now) }
    requires leveled { AreLeveled defs.now levels.now.links levels.now.depths }
    ensures checks { Checks result (bodies_fault defs.now) }
    ensures ports { IfOk result (λ table. table.items ≡ map (λ d. ports_of defs.now d.name) defs.now) }
{
    let mut table = empty_table(alloc, defs.len())?;
    for depth in 1..9u32 {
        pass(alloc, defs, levels, depth, &mut table)?;
    }
    Ok(table)
}

/// A table of this many definitions without ports.
fn empty_table(alloc: Global, count: usize) -> Result<Vec<Ports>, OutOfMemory>
    ensures { IfOk result (λ table. table.items ≡ replicate count no_ports) }
{
    let mut table = Vec::new(alloc);
    for _ in 0..count {
        table.push(no_ports(alloc))?;
    }
    Ok(table)
}

/// Checks the bodies of this depth, and puts their ports into the table.
fn pass(
    alloc: Global,
    defs: &[Def],
    levels: &Levels,
    depth: u32,
    table: &mut [Ports],
) -> Result<(), AlgoError>
    requires read { All (λ d. IsWellRead d.body) defs.now }
    requires leveled { AreLeveled defs.now levels.now.links levels.now.depths }
    requires depth { depth ≤ 8 }
    requires table { IsTable defs.now depth table.old }
    ensures checks { Checks result (first_of (faults_at defs.now depth defs.now levels.now.depths)) }
    ensures table { OnOk result (IsTable defs.now (depth + 1) table.new) }
{
    check_depth(alloc, defs, levels, depth, table)?;
    fill_depth(alloc, defs, levels, depth, table)?;
    Ok(())
}

/// Checks the bodies of this depth, by line.
fn check_depth(
    alloc: Global,
    defs: &[Def],
    levels: &Levels,
    depth: u32,
    table: &[Ports],
) -> Result<(), AlgoError>
    requires read { All (λ d. IsWellRead d.body) defs.now }
    requires leveled { AreLeveled defs.now levels.now.links levels.now.depths }
    requires table { IsTable defs.now depth table.now }
    ensures { Checks result (first_of (faults_at defs.now depth defs.now levels.now.depths)) }
{
    for place in 0..defs.len() {
        if depth_at(defs, levels, place) == depth {
            check_place(alloc, defs, levels, depth, table, place)?;
        }
    }
    Ok(())
}

/// The depth of the definition at a place.
fn depth_at(defs: &[Def], levels: &Levels, place: usize) -> u32
    requires leveled { AreLeveled defs.now levels.now.links levels.now.depths }
    requires place { place < length defs.now }
    ensures { result ≡ slice_index_or levels.now.depths place 0 }
{
    levels.depths.as_slice()[place]
}

/// Checks the body at a place, which has this depth.
fn check_place(
    alloc: Global,
    defs: &[Def],
    levels: &Levels,
    depth: u32,
    table: &[Ports],
    place: usize,
) -> Result<(), AlgoError>
    requires read { All (λ d. IsWellRead d.body) defs.now }
    requires leveled { AreLeveled defs.now levels.now.links levels.now.depths }
    requires place { place < length defs.now }
    requires this_depth { slice_index_or levels.now.depths place 0 ≡ depth }
    requires table { IsTable defs.now depth table.now }
    ensures { (d : Def) → slice_get defs.now place ≡ Some d → Checks result (body_fault defs.now d.line d.body) }
{
    let def = &defs[place];
    let places = levels.links.as_slice()[place].as_slice();
    check_body(alloc, defs, table, places, def.line, &def.body)
}

/// Puts the ports of the bodies of this depth, which have passed their checks, into the table.
fn fill_depth(
    alloc: Global,
    defs: &[Def],
    levels: &Levels,
    depth: u32,
    table: &mut [Ports],
) -> Result<(), OutOfMemory>
    requires read { All (λ d. IsWellRead d.body) defs.now }
    requires leveled { AreLeveled defs.now levels.now.links levels.now.depths }
    requires depth { depth ≤ 8 }
    requires passed { first_of (faults_at defs.now depth defs.now levels.now.depths) ≡ None }
    requires table { IsTable defs.now depth table.old }
    ensures { OnOk result (IsTable defs.now (depth + 1) table.new) }
{
    for place in 0..defs.len() {
        if depth_at(defs, levels, place) == depth {
            fill_place(alloc, defs, levels, depth, table, place)?;
        }
    }
    Ok(())
}

/// Puts the ports of the body at a place into the table.
fn fill_place(
    alloc: Global,
    defs: &[Def],
    levels: &Levels,
    depth: u32,
    table: &mut [Ports],
    place: usize,
) -> Result<(), OutOfMemory>
    requires read { All (λ d. IsWellRead d.body) defs.now }
    requires leveled { AreLeveled defs.now levels.now.links levels.now.depths }
    requires depth { depth ≤ 8 }
    requires passed { first_of (faults_at defs.now depth defs.now levels.now.depths) ≡ None }
    requires place { place < length defs.now }
    requires this_depth { slice_index_or levels.now.depths place 0 ≡ depth }
    requires table { IsFilling defs.now depth place table.old }
    ensures { OnOk result (IsFilling defs.now depth (place + 1) table.new) }
{
    let def = &defs[place];
    let places = levels.links.as_slice()[place].as_slice();
    table[place] = ports_of_checked(alloc, defs, table, places, def.line, &def.body)?;
    Ok(())
}
