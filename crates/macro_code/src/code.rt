//! The whole text of a program, which callers of the crate ask for.
ghost use Rattle.std.specs.Prelude.{◌≡◌, ◌++◌, OnErr, OnOk};
ghost use Rattle.macro_code.specs.Text.{macro_code, names_of, processors_from};

use crate::named::Named;
use crate::processor::append_processor;
use executive_program::{Archi, Flat, Program};
use std::alloc::Global;
use syn_base::OutOfMemory;

/// Appends the macro-code of a program, operator by operator: `processor_(OPERATOR)`;
/// `semaphores_(q,..)` with the pairs of its buffers; `alloc_(bN,LEN)` for each of its buffers, or
/// `alloc_(bN,LEN,PLACES)` where it has several places; `thread_(MEDIUM)` to `endthread_` for each of
/// its communicators; and `main_` to `endmain_` for its computation sequence, which begins with a
/// `spawn_thread_(MEDIUM)` and ends with a `wait_endthread_(MEDIUM)` for each of these threads. A
/// sequence is its prologue, `loop_`, its loop and `endloop_`. What the program names and is not there
/// has an empty name. After want of memory `out` is as before.
///
/// It takes time in proportion to the text, and to the operators times the program's buffers, pairs and
/// sequences.
pub fn print_code(
    alloc: Global,
    program: &Program,
    flat: &Flat,
    archi: &Archi,
    out: &mut Vec<u8>,
) -> Result<(), OutOfMemory>
    ensures text { OnOk result (out.new.items ≡ out.old.items ++ macro_code program.now flat.now archi.now) }
    ensures err { OnErr result (out.new.items ≡ out.old.items) }
{
    let named = Named {
        vertices: flat.vertices(),
        operators: archi.operators(),
        media: archi.media(),
    };
    let mut text = Vec::new(alloc);
    append_processors(alloc, &mut text, &named, program)?;
    out.extend_from_slice(&text)?;
    Ok(())
}

/// Appends the texts of the processors, each with its sequences, pairs and buffers.
fn append_processors(
    alloc: Global,
    out: &mut Vec<u8>,
    named: &Named,
    program: &Program,
) -> Result<(), OutOfMemory>
    ensures { OnOk result (out.new.items ≡ out.old.items ++
        processors_from (names_of named.now) program.now 0 named.now.operators.now) }
{
    for operator in 0..named.operators.len() {
        append_processor(alloc, out, named, program, operator)?;
    }
    Ok(())
}
