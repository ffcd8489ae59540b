//! The marks on the references of `main`: `marks`, which `elaboration` calls.
ghost use Rattle.std.specs.Prelude.{◌≡◌, ◌≤◌, IfOk, None, codes, length, map};
ghost use Rattle.syn_base.specs.Limits.{most_in_text};
ghost use Rattle.text_lines.specs.Refusals.{GivesList};
ghost use Rattle.elaboration.specs.Marking.{marking_of, marks_from, marks_in};
ghost use Rattle.algo_laws.specs.Well.{AreDistinctNames};
ghost use Rattle.algo_laws.specs.RuleLinks.{definition};
ghost use Rattle.algo_laws.specs.Resolved.{refusal};
ghost use Rattle.algo_laws.specs.Periods.{references_of};

use crate::standing::check_marks;
use algo_check::links_of;
use algo_laws::{AlgoError, Body, Def, Defs, Reference};
use multi_period::Mark;
use std::alloc::Global;
use syn_base::{OutOfMemory, to_u32};

/// The marks on the references of `main`, in order. The definitions resolve to a tree.
///
/// Refused with BadEvery comes at the first line, by line, with a mark that stands outside `main` or whose
/// definition is a sensor, an actuator, a constant or a delay, and tells the name of the reference. OutOfMemory
/// may come in place of any result. Time is in proportion to the text.
pub fn marks(alloc: Global, defs: &Defs) -> Result<Vec<Mark>, AlgoError>
    requires resolved { refusal defs.now.defs ≡ None }
    requires distinct { AreDistinctNames (map (λ d. d.name) defs.now.defs) }
    requires few { length defs.now.defs ≤ most_in_text }
    ensures { GivesList result (marking_of defs.now.defs) }
{
    let Ok(links) = links_of(alloc, defs) else {
        return Err(AlgoError::OutOfMemory);
    };
    check_marks(alloc, defs.defs.as_slice(), links.as_slice())?;
    Ok(main_marks(alloc, defs.defs.as_slice())?)
}

/// The marks of the definition of `main`.
fn main_marks(alloc: Global, defs: &[Def]) -> Result<Vec<Mark>, OutOfMemory>
    ensures { IfOk result (λ ms. ms.items ≡ marks_in (definition defs.now (codes "main"))) }
{
    for def in defs {
        if b"main".as_slice() == def.name.as_bytes() {
            return marks_of(alloc, &def.body);
        }
    }
    Ok(Vec::new(alloc))
}

/// The marks on the references of a body.
fn marks_of(alloc: Global, body: &Body) -> Result<Vec<Mark>, OutOfMemory>
    ensures { IfOk result (λ ms. ms.items ≡ marks_from 0 (references_of body.now)) }
{
    match body {
        Body::Graph { references, .. } => marks_on(alloc, references.as_slice()),
        _ => Ok(Vec::new(alloc)),
    }
}

/// The marks on these references, each with its place.
fn marks_on(alloc: Global, references: &[Reference]) -> Result<Vec<Mark>, OutOfMemory>
    ensures { IfOk result (λ ms. ms.items ≡ marks_from 0 references.now) }
{
    let mut marks = Vec::new(alloc);
    for place in 0..references.len() {
        if let Some(every) = references[place].every {
            marks.push(Mark {
                reference: to_u32(place)?,
                every,
            })?;
        }
    }
    Ok(marks)
}
