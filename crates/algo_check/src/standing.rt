//! The check of which definitions may stand where, which `links_of` makes once all names are known.
ghost use Rattle.std.specs.Prelude.{◌≡◌, Some, slice_get};
ghost use Rattle.algo_rules.specs.Links.{is_main, is_end, may_be_inner, may_stand, links_of};
ghost use Rattle.algo_rules.specs.Placed.{Checks};
ghost use Rattle.algo_check.specs.Placing.{places_of, misplaced_in, misplaced_all};

use crate::fault::misplaced;
use crate::mention::{Mention, mentions_of};
use algo_rules::{AlgoError, Body, Def};
use std::alloc::Global;
use syn_base::{Items, Name};

/// Whether this is the name of the main graph.
fn is_main(name: &Name) -> bool
    ensures { result ≡ is_main name.now }
{
    name.as_bytes() == b"main".as_slice()
}

/// Whether a definition is a sensor or an actuator.
fn is_end(body: &Body) -> bool
    ensures { result ≡ is_end body.now }
{
    matches!(body, Body::Sensor(_) | Body::Actuator(_))
}

/// Whether a definition may be a case or the body of a repetition.
fn may_be_inner(body: &Body) -> bool
    ensures { result ≡ may_be_inner body.now }
{
    matches!(
        body,
        Body::Function { .. } | Body::Graph { .. } | Body::Switch { .. } | Body::Repeat { .. }
    )
}

/// Whether the definition may stand where a line of the owner names it.
fn may_stand(owner: &Name, mention: &Mention, def: &Def) -> bool
    ensures { result ≡ may_stand owner.now mention.now (Some def.now) }
{
    if is_main(mention.def()) {
        return false;
    }
    if mention.is_reference() {
        !is_end(&def.body) || is_main(owner)
    } else {
        may_be_inner(&def.body)
    }
}

/// The same of the definition at a place.
fn may_stand_at(owner: &Name, mention: &Mention, defs: &[Def], place: usize) -> bool
    ensures { result ≡ may_stand owner.now mention.now (slice_get defs.now place) }
{
    if place < defs.len() {
        may_stand(owner, mention, &defs[place])
    } else {
        true
    }
}

/// Checks that each line of the owner names what may stand there. The places are those of the definitions
/// that the lines name.
fn check_lines(
    alloc: Global,
    owner: &Name,
    mentions: &[Mention],
    places: &[u32],
    defs: &[Def],
) -> Result<(), AlgoError>
    requires { places.now ≡ places_of defs.now mentions.now }
    ensures { Checks result (misplaced_in defs.now owner.now mentions.now) }
{
    for k in 0..mentions.len() {
        let mention = &mentions[k];
        if !may_stand_at(owner, mention, defs, places[k] as usize) {
            return Err(misplaced(alloc, mention.line(), mention.def()));
        }
    }
    Ok(())
}

/// Checks that each line of any definition names what may stand there.
pub fn check_standing(alloc: Global, defs: &[Def], links: &[Items<u32>]) -> Result<(), AlgoError>
    requires { links.now ≡ links_of defs.now }
    ensures { Checks result (misplaced_all defs.now defs.now) }
{
    for i in 0..defs.len() {
        let def = &defs[i];
        let mentions = mentions_of(alloc, def)?;
        check_lines(
            alloc,
            &def.name,
            mentions.as_slice(),
            links[i].as_slice(),
            defs,
        )?;
    }
    Ok(())
}
