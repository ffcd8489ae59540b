//! The command `table A`: the sensor table that an algorithm wants. `commands` calls `table_text`.
ghost use Rattle.lab_plans.specs.Plans.{template_plan};
ghost use Rattle.top_plans.specs.Shelf.{Stays};
ghost use Rattle.lab_program.specs.Texts.{Carries};

use std::alloc::Global;
use top_plans::{Shelf, Status, read_algorithm, template_text};

/// The header of the sensor table of an accepted algorithm and one reaction of zeros, or why there is none.
pub fn table_text<S: Shelf>(
    alloc: Global,
    shelf: &mut S,
    algorithm: &str,
) -> Result<Vec<u8>, Status>
    ensures stays { Stays (S.held shelf.old) (S.held shelf.new) }
    ensures carries { Carries (template_plan algorithm.now) (S.held shelf.old) (S.held shelf.new) result }
{
    let algorithm = read_algorithm(alloc, shelf, algorithm)?;
    Ok(template_text(alloc, &algorithm.tree)?)
}
