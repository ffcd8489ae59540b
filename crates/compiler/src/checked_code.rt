//! The reading of a text, and then the check of its program.
ghost use Rattle.std.specs.Prelude.{◌≤◌, length};
ghost use Rattle.syn_base.specs.Limits.{most_in_text};
ghost use Rattle.text_lines.specs.Text.{lines_of};
ghost use Rattle.compiler.specs.Checked.{GivesChecked};

use crate::checked_error::CheckedError;
use code_reader::read_code;
use macro_check::{loops_are_short, macro_check};
use macro_code::CodeError;
use sequence_build_laws::{Archi, Flat, Program};
use std::alloc::Global;

/// The program of a text of macro-code, if it is well formed for a flat graph and an architecture. A loop that no
/// memory holds is want of memory.
pub fn read_checked(
    alloc: Global,
    bytes: &[u8],
    flat: &Flat,
    archi: &Archi,
) -> Result<Program, CheckedError>
    requires { length (lines_of bytes.now) ≤ most_in_text }
    ensures { GivesChecked bytes.now flat.now archi.now result }
{
    let program = read_code(alloc, bytes, flat, archi)?;
    if !loops_are_short(&program) {
        return Err(CheckedError::Text(CodeError::OutOfMemory));
    }
    // That there is an order makes the program well formed; whoever executes it needs none.
    let _order = macro_check(alloc, flat, archi, &program)?;
    Ok(program)
}
