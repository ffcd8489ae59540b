//! The check of where marks may stand, which `marks` makes before it lists them.
ghost use Rattle.std.specs.Prelude.{◌≡◌, ◌&&◌, slice_get};
ghost use Rattle.algo_check.specs.Placing.{places_of};
ghost use Rattle.algo_laws.specs.declared.AlgoCause.TheVariants.{BadEvery};
ghost use Rattle.algo_laws.specs.RuleLinks.{fault, is_main as names_main, links_of, may_be_inner as inner, mentions};
ghost use Rattle.algo_laws.specs.Placed.{Checks};
ghost use Rattle.algo_laws.specs.Returned.{Tells};
ghost use Rattle.elaboration.specs.Marking.{may_be_marked, may_stand as stands};
ghost use Rattle.elaboration.specs.Walked.{bad_all, bad_in, bad_of, places_in};

use algo_laws::{AlgoCause, AlgoError, Body, Def, Reference};
use std::alloc::Global;
use syn_base::{Items, Name};
use text_lines::refused_at;

/// The refusal of the mark of this reference, or want of memory for its name.
fn bad_every(alloc: Global, line: u32, name: &Name) -> AlgoError
    ensures { Tells result (fault line (BadEvery name.now)) }
{
    match name.copy(alloc) {
        Ok(name) => refused_at(line, AlgoCause::BadEvery(name)),
        Err(_) => AlgoError::OutOfMemory,
    }
}

/// Whether this is the name of the main graph.
fn is_main(name: &Name) -> bool
    ensures { result ≡ names_main name.now }
{
    name.as_bytes() == b"main".as_slice()
}

/// Whether a definition may have a mark: it is neither a sensor nor an actuator, a constant or a delay.
fn may_be_inner(body: &Body) -> bool
    ensures { result ≡ inner body.now }
{
    matches!(
        body,
        Body::Function { .. } | Body::Graph { .. } | Body::Switch { .. } | Body::Repeat { .. }
    )
}

/// Whether a reference of this owner to the definition at a place may have a mark.
fn may_have(owner: &Name, defs: &[Def], place: usize) -> bool
    ensures { result ≡ (names_main owner.now && may_be_marked (slice_get defs.now place)) }
{
    is_main(owner) && place < defs.len() && may_be_inner(&defs[place].body)
}

/// Whether a reference of this owner to the definition at a place has no mark, or may have one.
fn may_stand(owner: &Name, reference: &Reference, defs: &[Def], place: usize) -> bool
    ensures { result ≡ stands owner.now reference.now (slice_get defs.now place) }
{
    match reference.every {
        Some(_) => may_have(owner, defs, place),
        None => true,
    }
}

/// Checks that each reference of the owner with a mark may have one. The places are those of the definitions
/// that the references name.
fn check_references(
    alloc: Global,
    owner: &Name,
    references: &[Reference],
    places: &[u32],
    defs: &[Def],
) -> Result<(), AlgoError>
    requires { places.now ≡ places_in defs.now references.now }
    ensures { Checks result (bad_in defs.now owner.now references.now) }
{
    for k in 0..references.len() {
        let reference = &references[k];
        if !may_stand(owner, reference, defs, places[k] as usize) {
            return Err(bad_every(alloc, reference.line, &reference.name));
        }
    }
    Ok(())
}

/// Checks the marks of a definition.
fn check_def(alloc: Global, def: &Def, places: &[u32], defs: &[Def]) -> Result<(), AlgoError>
    requires { places.now ≡ places_of defs.now (mentions def.now) }
    ensures { Checks result (bad_of defs.now def.now) }
{
    match &def.body {
        Body::Graph { references, .. } => {
            check_references(alloc, &def.name, references.as_slice(), places, defs)
        }
        _ => Ok(()),
    }
}

/// Checks the marks of all definitions, by line.
pub fn check_marks(alloc: Global, defs: &[Def], links: &[Items<u32>]) -> Result<(), AlgoError>
    requires { links.now ≡ links_of defs.now }
    ensures { Checks result (bad_all defs.now defs.now) }
{
    for i in 0..defs.len() {
        check_def(alloc, &defs[i], links[i].as_slice(), defs)?;
    }
    Ok(())
}
