//! The command `graph A`: the definitions of an algorithm as a graph. `commands` calls `graph_text`.
ghost use Rattle.std.specs.Prelude.{◌≡◌, IfOk};
ghost use Rattle.definition_drawing.specs.Drawing.{drawing};
ghost use Rattle.lab_plans.specs.Plans.{graph_plan};
ghost use Rattle.top_plans.specs.Shelf.{Stays};
ghost use Rattle.lab_program.specs.Texts.{Carries};

use algo_laws::Defs;
use definition_drawing::print_definitions;
use std::alloc::Global;
use syn_base::OutOfMemory;
use top_plans::{Shelf, Status, read_algorithm};

/// The definitions of an accepted algorithm as a graph, or why there is none.
pub fn graph_text<S: Shelf>(
    alloc: Global,
    shelf: &mut S,
    algorithm: &str,
) -> Result<Vec<u8>, Status>
    ensures stays { Stays (S.held shelf.old) (S.held shelf.new) }
    ensures carries { Carries (graph_plan algorithm.now) (S.held shelf.old) (S.held shelf.new) result }
{
    let algorithm = read_algorithm(alloc, shelf, algorithm)?;
    Ok(print_drawing(alloc, &algorithm.defs)?)
}

/// The drawing of definitions.
fn print_drawing(alloc: Global, defs: &Defs) -> Result<Vec<u8>, OutOfMemory>
    ensures { IfOk result (λ text. text.items ≡ drawing defs.now) }
{
    let mut text = Vec::new(alloc);
    print_definitions(alloc, defs, &mut text)?;
    Ok(text)
}
