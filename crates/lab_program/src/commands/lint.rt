//! The command `lint A [H]`: what is accepted and probably not meant. `commands` calls `lint_text`.
ghost use Rattle.std.specs.Prelude.{◌≡◌, IfOk, map, option_map};
ghost use Rattle.algo_laws.specs.Well.{AreDistinctNames};
ghost use Rattle.lab_plans.specs.Asked.{of_text};
ghost use Rattle.lab_plans.specs.Plans.{lint_behind, lint_of_algorithm, lint_of_both, lint_plan};
ghost use Rattle.top_plans.specs.Plan.{give};
ghost use Rattle.top_plans.specs.Shelf.{Stays};
ghost use Rattle.top_plans.specs.declared.File.TheVariants.{Architecture};
ghost use Rattle.top_plans.specs.Plans.{architecture_in, read_file};
ghost use Rattle.lab_program.specs.Texts.{Carries};
ghost use Rattle.self_timed.specs.Text.{described_by};

use algo_laws::{Defs, accepted_are_well_read};
use compiler::{Algorithm, compile_to_durations};
use self_timed::ArchiText;
use std::alloc::Global;
use syn_base::OutOfMemory;
use text_lint::{algorithm_findings, architecture_findings, print_findings};
use top_plans::{File, Shelf, Status, read_algorithm, read_file};

/// What is accepted and probably not meant in an algorithm, and in an architecture beside it where one is named; or why
/// there is no answer.
pub fn lint_text<S: Shelf>(
    alloc: Global,
    shelf: &mut S,
    algorithm: &str,
    architecture: Option<&str>,
) -> Result<Vec<u8>, Status>
    ensures stays { Stays (S.held shelf.old) (S.held shelf.new) }
    ensures carries { Carries (lint_plan algorithm.now (option_map (λ h. h.now) architecture.entry))
        (S.held shelf.old) (S.held shelf.new) result }
{
    accepted_are_well_read();
    let algorithm = read_algorithm(alloc, shelf, algorithm)?;
    lint_of_read(alloc, shelf, &algorithm, architecture)
}

/// The same of an algorithm that was read.
fn lint_of_read<S: Shelf>(
    alloc: Global,
    shelf: &mut S,
    algorithm: &Algorithm,
    architecture: Option<&str>,
) -> Result<Vec<u8>, Status>
    requires { AreDistinctNames (map (λ d. d.name) algorithm.now.defs.defs) }
    ensures stays { Stays (S.held shelf.old) (S.held shelf.new) }
    ensures carries { Carries (lint_behind (option_map (λ h. h.now) architecture.entry)
        algorithm.now.defs algorithm.now.tree) (S.held shelf.old) (S.held shelf.new) result }
{
    match architecture {
        Some(name) => lint_both(alloc, shelf, algorithm, name),
        None => Ok(print_algorithm(alloc, &algorithm.defs)?),
    }
}

/// The same with the architecture of this name beside it.
fn lint_both<S: Shelf>(
    alloc: Global,
    shelf: &mut S,
    algorithm: &Algorithm,
    name: &str,
) -> Result<Vec<u8>, Status>
    requires { AreDistinctNames (map (λ d. d.name) algorithm.now.defs.defs) }
    ensures stays { Stays (S.held shelf.old) (S.held shelf.new) }
    ensures carries { Carries (read_file Architecture name.now (λ text.
        architecture_in text algorithm.now.tree (λ d t.
        give (of_text (lint_of_both algorithm.now.defs text d)))))
        (S.held shelf.old) (S.held shelf.new) result }
{
    let text = read_file(alloc, shelf, File::Architecture, name)?;
    let problem = compile_to_durations(alloc, &text, &algorithm.tree)?;
    Ok(print_both(alloc, &algorithm.defs, &text, &problem.text)?)
}

/// The findings of definitions.
fn print_algorithm(alloc: Global, defs: &Defs) -> Result<Vec<u8>, OutOfMemory>
    requires { AreDistinctNames (map (λ d. d.name) defs.now.defs) }
    ensures { IfOk result (λ text. text.items ≡ lint_of_algorithm defs.now) }
{
    let found = algorithm_findings(alloc, defs.defs.as_slice())?;
    let mut out = Vec::new(alloc);
    print_findings(alloc, &found, &mut out)?;
    Ok(out)
}

/// The findings of definitions and of the text of an architecture, which describes this.
fn print_both(
    alloc: Global,
    defs: &Defs,
    text: &[u8],
    archi: &ArchiText,
) -> Result<Vec<u8>, OutOfMemory>
    requires { AreDistinctNames (map (λ d. d.name) defs.now.defs) }
    ensures { IfOk result (λ out. out.items ≡ lint_of_both defs.now text.now (described_by archi.now)) }
{
    let mut out = print_algorithm(alloc, defs)?;
    let found = architecture_findings(alloc, defs.defs.as_slice(), text, archi)?;
    print_findings(alloc, &found, &mut out)?;
    Ok(out)
}
