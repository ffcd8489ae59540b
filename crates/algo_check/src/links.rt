//! The places of the definitions that definitions name: `links_of`, which the checks and the resolver call.
ghost use Rattle.std.specs.Prelude.{◌≡◌, ◌≤◌, IfOk, length, map, ◌∷◌, []};
ghost use Rattle.syn_base.specs.Limits.{most_in_text};
ghost use Rattle.algo_rules.specs.Well.{AreDistinctNames};
ghost use Rattle.algo_rules.specs.Links.{first_of, unknown, misplaced, links_of, mentions};
ghost use Rattle.algo_rules.specs.Placed.{Checks};
ghost use Rattle.algo_check.specs.Placing.{names_of, unknown_in, unknown_all, places_in, places_all};

use crate::fault::unknown;
use crate::mention::{Mention, mentions_of};
use crate::names::names_of;
use crate::standing::check_standing;
use algo_rules::{AlgoError, Def, Defs};
use std::alloc::Global;
use syn_base::Items;
use text_lines::Names;

/// The places of the names that these lines name, or the first line whose name is not there.
fn places_of_lines(
    alloc: Global,
    names: &Names,
    mentions: &[Mention],
) -> Result<Items<u32>, AlgoError>
    requires { length names.now ≤ most_in_text }
    ensures checks { Checks result (unknown_in names.now mentions.now) }
    ensures places { IfOk result (λ places. places ≡ places_in names.now mentions.now) }
{
    let mut places = Vec::new(alloc);
    for mention in mentions {
        let name = mention.def().as_bytes();
        let Some(place) = names.find(name) else {
            return Err(unknown(alloc, mention.line(), name));
        };
        places.push(place as u32)?;
    }
    Ok(Items::new(places))
}

/// The places of the names that a definition names.
fn places_of_def(alloc: Global, names: &Names, def: &Def) -> Result<Items<u32>, AlgoError>
    requires { length names.now ≤ most_in_text }
    ensures checks { Checks result (unknown_in names.now (mentions def.now)) }
    ensures places { IfOk result (λ places. places ≡ places_in names.now (mentions def.now)) }
{
    let mentions = mentions_of(alloc, def)?;
    places_of_lines(alloc, names, mentions.as_slice())
}

/// The places of the names that each definition names, or the first line whose name is not there.
fn places_of_all(alloc: Global, names: &Names, defs: &[Def]) -> Result<Vec<Items<u32>>, AlgoError>
    requires { length names.now ≤ most_in_text }
    ensures checks { Checks result (unknown_all names.now defs.now) }
    ensures links { IfOk result (λ links. links.items ≡ places_all names.now defs.now) }
{
    let mut links = Vec::new(alloc);
    for def in defs {
        let places = places_of_def(alloc, names, def)?;
        links.push(places)?;
    }
    Ok(links)
}

/// For each definition the places of those that it names, or the first line that names none.
fn known_links(alloc: Global, defs: &[Def]) -> Result<Vec<Items<u32>>, AlgoError>
    requires distinct { AreDistinctNames (names_of defs.now) }
    requires few { length defs.now ≤ most_in_text }
    ensures checks { Checks result (unknown defs.now) }
    ensures links { IfOk result (λ links. links.items ≡ links_of defs.now) }
{
    let names = names_of(alloc, defs)?;
    places_of_all(alloc, &names, defs)
}

/// The same once the check of what may stand where has passed.
fn checked_links(alloc: Global, defs: &[Def]) -> Result<Vec<Items<u32>>, AlgoError>
    requires distinct { AreDistinctNames (names_of defs.now) }
    requires few { length defs.now ≤ most_in_text }
    ensures checks { Checks result (first_of (unknown defs.now ∷ misplaced defs.now ∷ [])) }
    ensures links { IfOk result (λ links. links.items ≡ links_of defs.now) }
{
    let links = known_links(alloc, defs)?;
    check_standing(alloc, defs, links.as_slice())?;
    Ok(links)
}

/// For each definition the places of those that it names, in the order of its lines.
///
/// Refused with UnknownName comes at the first line, by line, that names no definition; where there is none,
/// Refused with Misplaced at the first line that names a definition that may not stand there: `main` anywhere,
/// a sensor or an actuator in another graph than `main`, and as a case, an `otherwise` or the body of a
/// repetition anything but a function, a graph, a switch or a repetition. OutOfMemory may come
/// in place of any result.
pub fn links_of(alloc: Global, defs: &Defs) -> Result<Vec<Items<u32>>, AlgoError>
    requires distinct { AreDistinctNames (map (λ d. d.name) defs.now.defs) }
    requires few { length defs.now.defs ≤ most_in_text }
    ensures checks { Checks result (first_of (unknown defs.now.defs ∷ misplaced defs.now.defs ∷ [])) }
    ensures links { IfOk result (λ links. links.items ≡ links_of defs.now.defs) }
{
    checked_links(alloc, defs.defs.as_slice())
}
