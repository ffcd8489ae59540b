//! The pruned tree of the definitions of a text, or their first refusal: `resolve`, which `elaboration` calls.
ghost use Rattle.std.specs.Prelude.{◌≡◌, ◌<◌, ◌≤◌, IfOk, IfSome, MatchOption, None, Some, codes, length, slice_get};
ghost use Rattle.syn_base.specs.Limits.{most_in_text};
ghost use Rattle.text_lines.specs.Refusals.{Gives};
ghost use Rattle.algo_laws.specs.RuleLinks.{definition};
ghost use Rattle.algo_laws.specs.Resolved.{refusal, resolution_of, tree_of};
ghost use Rattle.algo_laws.specs.WellRead.{AreWellRead};
ghost use Rattle.algo_laws.specs.View.{view};
ghost use Rattle.algo_resolve.specs.Parts.{ArePlanned, AreReady};
ghost use Rattle.algo_resolve.specs.Rounds.{pruned_result};
ghost use Rattle.wiring_laws.specs.Pruned.{pruned};

use crate::build::{Seat, build_live};
use crate::builder::Builder;
use crate::checked::Checked;
use crate::lookup::copy_name;
use crate::passing::rounds;
use crate::plan::plans;
use algo_check::{check_definitions, links_of};
use algo_laws::{AlgoError, Def, Defs, Part, Tree, Vertex, accepted_make_a_tree};
use std::alloc::Global;
use syn_base::{OutOfMemory, Shared};
use wiring_laws::pruned_is_a_tree;

/// The pruned tree of the definitions of a text, or their first refusal in the order of the checks.
/// OutOfMemory may come in place of any result, where memory runs out.
pub fn resolve(alloc: Global, defs: &Defs) -> Result<Tree, AlgoError>
    requires read { AreWellRead defs.now.defs }
    requires few { length defs.now.defs ≤ most_in_text }
    ensures { Gives result (pruned_result (resolution_of defs.now.defs)) }
{
    let table = check_definitions(alloc, defs)?;
    let Ok(links) = links_of(alloc, defs) else {
        return Err(AlgoError::OutOfMemory);
    };
    let checked = Checked {
        defs: defs.defs.as_slice(),
        links: links.as_slice(),
        table: table.as_slice(),
    };
    match tree(alloc, &checked) {
        Ok(tree) => Ok(tree),
        Err(_) => Err(AlgoError::OutOfMemory),
    }
}

/// The pruned tree of definitions that have passed all checks.
fn tree(alloc: Global, checked: &Checked) -> Result<Tree, OutOfMemory>
    requires ready { AreReady checked.now }
    requires read { AreWellRead checked.now.defs.now }
    requires passed { refusal checked.now.defs.now ≡ None }
    ensures { IfOk result (λ t. t ≡ pruned (tree_of checked.now.defs.now)) }
{
    let Some(place) = main_place(checked.defs) else {
        unreachable!()
    };
    let main = main_vertex(alloc, checked, place)?;
    // That the vertex is a valid tree, which `Tree::new` asks for.
    accepted_make_a_tree();
    pruned_is_a_tree();
    Ok(Tree::new(main))
}

/// The vertex of the main graph, whose definition stands at this place, with what is inside it pruned.
fn main_vertex(alloc: Global, checked: &Checked, place: usize) -> Result<Vertex, OutOfMemory>
    requires ready { AreReady checked.now }
    requires read { AreWellRead checked.now.defs.now }
    requires passed { refusal checked.now.defs.now ≡ None }
    requires below { place < length checked.now.defs.now }
    requires main { definition checked.now.defs.now (codes "main") ≡ slice_get checked.now.defs.now place }
    ensures { IfOk result (λ v. view v ≡ pruned (tree_of checked.now.defs.now)) }
{
    let plans = plans(alloc, checked)?;
    let rounds = rounds(alloc, checked, &plans)?;
    let builder = Builder {
        defs: checked.defs,
        links: checked.links,
        table: checked.table,
        plans: &plans,
        rounds: &rounds,
    };
    build_main(alloc, &builder, place)
}

/// The vertex of the main graph, built from the plans.
fn build_main(alloc: Global, builder: &Builder, place: usize) -> Result<Vertex, OutOfMemory>
    requires planned { ArePlanned builder.now }
    requires below { place < length builder.now.defs.now }
    requires main { definition builder.now.defs.now (codes "main") ≡ slice_get builder.now.defs.now place }
    ensures { IfOk result (λ v. view v ≡ pruned (tree_of builder.now.defs.now)) }
{
    let name = &builder.defs[place].name;
    let seat = Seat {
        part: Part::Named(copy_name(alloc, name)?),
        ins: Shared::empty(alloc)?,
        sensor: 0,
        actuator: 0,
    };
    build_live(alloc, builder, 7, name, place, seat)
}

/// The place of the definition of `main`, if there is one.
fn main_place(defs: &[Def]) -> Option<usize>
    ensures found { MatchOption result (definition defs.now (codes "main") ≡ None)
        (λ p. definition defs.now (codes "main") ≡ slice_get defs.now p) }
    ensures below { IfSome result (λ p. p < length defs.now) }
{
    for (place, def) in defs.iter().enumerate() {
        if b"main".as_slice() == def.name.as_bytes() {
            return Some(place);
        }
    }
    None
}
