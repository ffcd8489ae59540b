//! All checks of definitions in their order, which `algo_resolve` calls.
ghost use Rattle.std.specs.Prelude.{◌≡◌, ◌≤◌, ◌∷◌, [], IfOk, length, map};
ghost use Rattle.std.specs.List.{All};
ghost use Rattle.syn_base.specs.Limits.{most_in_text};
ghost use Rattle.algo_rules.specs.Well.{AreDistinctNames};
ghost use Rattle.algo_rules.specs.Links.{first_of};
ghost use Rattle.algo_rules.specs.Placed.{Checks};
ghost use Rattle.algo_rules.specs.Ports.{ports_of};
ghost use Rattle.algo_rules.specs.Resolved.{bodies_fault, no_main, refusal, too_many};
ghost use Rattle.algo_rules.specs.WellRead.{AreWellRead, IsWellRead};
ghost use Rattle.algo_check.specs.Leveled.{AreLeveled};

use crate::counts::check_operations;
use crate::levels::{Levels, levels_of};
use crate::main_graph::check_main;
use crate::tables::ports_of_bodies;
use algo_rules::{AlgoError, Def, Defs, Ports};
use std::alloc::Global;

/// The first refusal of definitions in the order of the checks, or their ports, by place.
///
/// The checks are: unknown names, misplaced ones, recursion and depth, by line; each body, by depth
/// and then by line; `main`; the number of flat operations. OutOfMemory may come in place of any
/// result.
pub fn check_definitions(alloc: Global, defs: &Defs) -> Result<Vec<Ports>, AlgoError>
    requires read { AreWellRead defs.now.defs }
    requires few { length defs.now.defs ≤ most_in_text }
    ensures checks { Checks result (refusal defs.now.defs) }
    ensures ports { IfOk result (λ table. table.items ≡ map (λ d. ports_of defs.now.defs d.name) defs.now.defs) }
{
    let levels = levels_of(alloc, defs)?;
    check_leveled(alloc, defs.defs.as_slice(), &levels)
}

/// Makes the checks that come after the depths are known: bodies, `main`, flat operations.
fn check_leveled(alloc: Global, defs: &[Def], levels: &Levels) -> Result<Vec<Ports>, AlgoError>
    requires read { All (λ d. IsWellRead d.body) defs.now }
    requires distinct { AreDistinctNames (map (λ d. d.name) defs.now) }
    requires leveled { AreLeveled defs.now levels.now.links levels.now.depths }
    ensures checks { Checks result (first_of (bodies_fault defs.now ∷ no_main defs.now ∷ too_many defs.now ∷ [])) }
    ensures ports { IfOk result (λ table. table.items ≡ map (λ d. ports_of defs.now d.name) defs.now) }
{
    let table = ports_of_bodies(alloc, defs, levels)?;
    check_main_and_operations(alloc, defs, levels)?;
    Ok(table)
}

/// Checks that `main` is there without ports, and not too large.
fn check_main_and_operations(alloc: Global, defs: &[Def], levels: &Levels) -> Result<(), AlgoError>
    requires read { All (λ d. IsWellRead d.body) defs.now }
    requires leveled { AreLeveled defs.now levels.now.links levels.now.depths }
    ensures { Checks result (first_of (no_main defs.now ∷ too_many defs.now ∷ [])) }
{
    check_main(defs)?;
    check_operations(alloc, defs, levels)
}
