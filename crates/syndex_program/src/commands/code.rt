//! The command `code A H`: the macro-code of a program. `commands` calls `code_text`, and `run` prints by
//! `print_program`.
ghost use Rattle.std.specs.Prelude.{◌≡◌, IfOk};
ghost use Rattle.compiler.specs.Compiles.{HasDurations};
ghost use Rattle.top_plans.specs.Reads.{text_in};
ghost use Rattle.top_plans.specs.Run.{Makes};
ghost use Rattle.top_plans.specs.CodeText.{macro_code};
ghost use Rattle.top_plans.specs.Shelf.{Held, Stays};
ghost use Rattle.top_plans.specs.Plans.{code_plan, macro_plan};

use compiler::{Problem, compile_to_program};
use self_timed::{Archi, Flat, Program};
use std::alloc::Global;
use syn_base::OutOfMemory;
use top_plans::{Shelf, Status, print_code, read_algorithm, read_architecture};

/// The macro-code of an algorithm on an architecture, or why there is none.
pub fn code_text<S: Shelf>(
    alloc: Global,
    shelf: &mut S,
    algorithm: &str,
    architecture: &str,
) -> Result<Vec<u8>, Status>
    ensures stays { Stays (S.held shelf.old) (S.held shelf.new) }
    ensures makes { Makes (S.held shelf.old) (S.held shelf.new)
        (code_plan algorithm.now architecture.now) (text_in result) }
{
    let algorithm = read_algorithm(alloc, shelf, algorithm)?;
    let problem = read_architecture(alloc, shelf, architecture, &algorithm.tree)?;
    compile_code(alloc, &problem)
}

/// The macro-code of the program that is built of the schedule, or why there is none.
fn compile_code(alloc: Global, problem: &Problem) -> Result<Vec<u8>, Status>
    requires { HasDurations problem.now }
    ensures { (held : Held) → Makes held held
        (macro_plan problem.now.flat problem.now.text.archi problem.now.durations)
        (text_in result) }
{
    let program = compile_to_program(alloc, problem)?;
    Ok(print_program(alloc, &program, &problem.flat, &problem.text.archi)?)
}

/// The macro-code of a program.
pub fn print_program(
    alloc: Global,
    program: &Program,
    flat: &Flat,
    archi: &Archi,
) -> Result<Vec<u8>, OutOfMemory>
    ensures { IfOk result (λ text. text.items ≡ macro_code program.now flat.now archi.now) }
{
    let mut text = Vec::new(alloc);
    print_code(alloc, program, flat, archi, &mut text)?;
    Ok(text)
}
