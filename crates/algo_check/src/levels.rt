//! The links and depths of definitions, with the checks that need no ports, which come first.
ghost use Rattle.std.specs.Prelude.{◌≡◌, ◌<◌, ◌≤◌, ◌∷◌, [], IfOk, None, Some, length, map};
ghost use Rattle.syn_base.specs.Limits.{most_in_text};
ghost use Rattle.algo_rules.specs.Well.{AreDistinctNames};
ghost use Rattle.algo_rules.specs.Returned.{Tells};
ghost use Rattle.algo_rules.specs.ReferenceLinks.{depths, first_recursive};
ghost use Rattle.algo_rules.specs.Links.{first_of, links_of, misplaced, recursive, recursive_by, too_deep, too_deep_by, unknown};
ghost use Rattle.algo_rules.specs.Placed.{Checks};
ghost use Rattle.algo_check.specs.Leveled.{AreLeveled};

use crate::links::links_of;
use algo_rules::{AlgoCause, AlgoError, Def, Defs, Depths, depths_of};
use std::alloc::Global;
use syn_base::{Items, LimitFault, LimitKind};
use text_lines::refused_at;

/// What definitions refer to, and how deep they are.
#[derive(Drop)]
pub struct Levels {
    /// For each definition the places of those that it names, in line order.
    pub links: Items<Items<u32>>,
    /// The depth of each definition, from 1 to 8.
    pub depths: Items<u32>,
}

/// The links and depths of definitions.
///
/// Refused with UnknownName or Misplaced comes as `links_of` returns it; where there is
/// none, Refused with Recursive at the first definition that reaches itself; then Limit with the
/// first depth above 8. OutOfMemory may come in place of any result.
pub fn levels_of(alloc: Global, defs: &Defs) -> Result<Levels, AlgoError>
    requires distinct { AreDistinctNames (map (λ d. d.name) defs.now.defs) }
    requires few { length defs.now.defs ≤ most_in_text }
    ensures checks { Checks result (first_of (unknown defs.now.defs ∷ misplaced defs.now.defs ∷
        recursive defs.now.defs ∷ too_deep defs.now.defs ∷ [])) }
    ensures leveled { IfOk result (λ l. AreLeveled defs.now.defs l.links l.depths) }
{
    let links = links_of(alloc, defs)?;
    let depths = linked_depths(alloc, defs.defs.as_slice(), links.as_slice())?;
    check_depths(depths.as_slice())?;
    Ok(Levels {
        links: Items::new(links),
        depths,
    })
}

/// The depth of each definition, where none reaches itself.
fn linked_depths(alloc: Global, defs: &[Def], links: &[Items<u32>]) -> Result<Items<u32>, AlgoError>
    requires few { length defs.now ≤ most_in_text }
    requires known { unknown defs.now ≡ None }
    requires links { links.now ≡ links_of defs.now }
    ensures checks { Checks result (recursive defs.now) }
    ensures ends { IfOk result (λ ns. first_recursive (links_of defs.now) ≡ None) }
    ensures depths { IfOk result (λ ns. ns ≡ depths (links_of defs.now)) }
{
    match depths_of(alloc, links)? {
        Depths::Of(depths) => Ok(depths),
        Depths::Recursive(place) => Err(recursive(alloc, defs, place)),
    }
}

/// The refusal of a definition that reaches itself.
fn recursive(alloc: Global, defs: &[Def], place: usize) -> AlgoError
    requires { place < length defs.now }
    ensures { Tells result (recursive_by defs.now (Some place)) }
{
    recursive_def(alloc, &defs[place])
}

/// The same of a definition.
fn recursive_def(alloc: Global, def: &Def) -> AlgoError
    ensures { Tells result (recursive_by (def.now ∷ []) (Some 0)) }
{
    match def.name.copy(alloc) {
        Ok(name) => refused_at(def.line, AlgoCause::Recursive(name)),
        Err(_) => AlgoError::OutOfMemory,
    }
}

/// Checks that no depth is above 8; the limit tells the first that is.
fn check_depths(depths: &[u32]) -> Result<(), AlgoError>
    ensures { Checks result (too_deep_by depths.now) }
{
    for depth in depths {
        if *depth > 8 {
            return Err(AlgoError::Limit(LimitFault {
                which: LimitKind::Depth,
                count: u128::from(*depth),
                bound: LimitKind::Depth.bound(),
            }));
        }
    }
    Ok(())
}
