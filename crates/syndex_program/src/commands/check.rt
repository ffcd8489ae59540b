//! The command `check A [H]`: the canonical texts. `commands` calls `check_texts`.
ghost use Rattle.std.specs.Prelude.{◌≡◌, IfOk, None, Some, option_map};
ghost use Rattle.algo_print.specs.Canonical.{canonical_text, ArePrintable};
ghost use Rattle.top_plans.specs.Reads.{text_in};
ghost use Rattle.top_plans.specs.Run.{Makes};
ghost use Rattle.top_plans.specs.Shelf.{Stays};
ghost use Rattle.top_plans.specs.Plans.{both_texts, check_plan};
ghost use Rattle.self_timed.specs.Text.{described_by};

use algo_print::{canonical_text_reads_back, print_algo};
use algo_text::Defs;
use archi_reader::print_archi;
use self_timed::ArchiText;
use std::alloc::Global;
use syn_base::OutOfMemory;
use top_plans::{Shelf, Status, read_algorithm, read_architecture};

/// The canonical text of an algorithm, and after an empty line that of an architecture where one is
/// named; or why there is none.
pub fn check_texts<S: Shelf>(
    alloc: Global,
    shelf: &mut S,
    algorithm: &str,
    architecture: Option<&str>,
) -> Result<Vec<u8>, Status>
    ensures stays { Stays (S.held shelf.old) (S.held shelf.new) }
    ensures makes { Makes (S.held shelf.old) (S.held shelf.new)
        (check_plan algorithm.now (option_map (λ name. name.now) architecture.entry))
        (text_in result) }
{
    match architecture {
        None => check_text(alloc, shelf, algorithm),
        Some(architecture) => check_both(alloc, shelf, algorithm, architecture),
    }
}

/// The canonical text of an algorithm, or why there is none.
fn check_text<S: Shelf>(alloc: Global, shelf: &mut S, algorithm: &str) -> Result<Vec<u8>, Status>
    ensures stays { Stays (S.held shelf.old) (S.held shelf.new) }
    ensures makes { Makes (S.held shelf.old) (S.held shelf.new) (check_plan algorithm.now None) (text_in result) }
{
    let algorithm = read_algorithm(alloc, shelf, algorithm)?;
    canonical_text_reads_back();
    Ok(print_definitions(alloc, &algorithm.defs)?)
}

/// The canonical texts of an algorithm and an architecture, or why there is none.
fn check_both<S: Shelf>(
    alloc: Global,
    shelf: &mut S,
    algorithm: &str,
    architecture: &str,
) -> Result<Vec<u8>, Status>
    ensures stays { Stays (S.held shelf.old) (S.held shelf.new) }
    ensures makes { Makes (S.held shelf.old) (S.held shelf.new)
        (check_plan algorithm.now (Some architecture.now)) (text_in result) }
{
    let algorithm = read_algorithm(alloc, shelf, algorithm)?;
    let problem = read_architecture(alloc, shelf, architecture, &algorithm.tree)?;
    canonical_text_reads_back();
    Ok(print_both(alloc, &algorithm.defs, &problem.text)?)
}

/// The canonical text of definitions.
fn print_definitions(alloc: Global, defs: &Defs) -> Result<Vec<u8>, OutOfMemory>
    requires { ArePrintable defs.now.defs }
    ensures { IfOk result (λ text. text.items ≡ canonical_text defs.now) }
{
    let mut text = Vec::new(alloc);
    print_algo(alloc, defs, &mut text)?;
    Ok(text)
}

/// The canonical text of definitions, an empty line, and that of an architecture.
fn print_both(alloc: Global, defs: &Defs, architecture: &ArchiText) -> Result<Vec<u8>, OutOfMemory>
    requires { ArePrintable defs.now.defs }
    ensures { IfOk result (λ text. text.items ≡ both_texts defs.now (described_by architecture.now)) }
{
    let mut text = print_definitions(alloc, defs)?;
    text.push(b'\n')?;
    print_archi(alloc, architecture, &mut text)?;
    Ok(text)
}
