//! The command `why A H C`: where macro-code from another source fails. `commands` calls `why_text`.
ghost use Rattle.std.specs.Prelude.{◌≡◌, ◌≤◌, ◌<◌, ◌^◌, ℕ, IfOk, length};
ghost use Rattle.self_timed.specs.Instructions.{turn};
ghost use Rattle.lab_plans.specs.Plans.{why_answer, why_of_code, why_plan};
ghost use Rattle.syn_base.specs.Limits.{most_in_text};
ghost use Rattle.text_lines.specs.Text.{lines_of};
ghost use Rattle.top_plans.specs.Shelf.{Held, Stays};
ghost use Rattle.lab_program.specs.Texts.{Carries};

use check_places::find_why;
use code_reader::read_code;
use compiler::flatten_tree;
use macro_check::loops_are_short;
use self_timed::{Archi, Flat, Program};
use std::alloc::Global;
use syn_base::OutOfMemory;
use top_plans::{File, Shelf, Status, read_algorithm, read_description, read_file};
use why_text::{Asked, print_answer};

/// Where macro-code fails that is checked for an algorithm on an architecture, or that it is well formed; or why there is
/// no answer. The durations of the architecture are passed over.
pub fn why_text<S: Shelf>(
    alloc: Global,
    shelf: &mut S,
    algorithm: &str,
    architecture: &str,
    code: &str,
) -> Result<Vec<u8>, Status>
    ensures stays { Stays (S.held shelf.old) (S.held shelf.new) }
    ensures carries { Carries (why_plan algorithm.now architecture.now code.now) (S.held shelf.old)
        (S.held shelf.new) result }
{
    let algorithm = read_algorithm(alloc, shelf, algorithm)?;
    let described = read_description(alloc, shelf, architecture)?;
    let flat = flatten_tree(alloc, &algorithm.tree)?;
    let text = read_file(alloc, shelf, File::Code, code)?;
    answer_of(alloc, &text, &flat, &described.archi)
}

/// The answer for a text of macro-code, or its first refusal. A loop that no memory holds is want of memory.
fn answer_of(alloc: Global, text: &[u8], flat: &Flat, archi: &Archi) -> Result<Vec<u8>, Status>
    requires { length (lines_of text.now) ≤ most_in_text }
    ensures { (held : Held) → Carries (why_of_code flat.now archi.now text.now) held held result }
{
    let program = read_code(alloc, text, flat, archi)?;
    if !loops_are_short(&program) {
        return Err(Status::OutOfMemory);
    }
    Ok(print_why(alloc, text, &program, flat, archi)?)
}

/// The answer for the program of a text.
fn print_why(
    alloc: Global,
    text: &[u8],
    program: &Program,
    flat: &Flat,
    archi: &Archi,
) -> Result<Vec<u8>, OutOfMemory>
    requires { (s : ℕ) → length (turn program.now s) < 2 ^ 32 }
    ensures { IfOk result (λ out. out.items ≡ why_answer text.now flat.now archi.now program.now) }
{
    let why = find_why(alloc, flat, archi, program)?;
    let asked = Asked {
        code: text,
        program,
        flat,
        archi,
    };
    let mut out = Vec::new(alloc);
    print_answer(alloc, &asked, &why, &mut out)?;
    Ok(out)
}
