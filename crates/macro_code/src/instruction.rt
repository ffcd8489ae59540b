//! The lines of a sequence, instruction by instruction, for the text of a processor.
ghost use Rattle.std.specs.Prelude.{◌≡◌, ◌++◌, ◌∷◌, [], OnOk};
ghost use Rattle.macro_code.specs.Text.{body_text, buffer_name, call_line, code_text, instr_line, line, names_of, operator_name};

use crate::arguments::{
    append_buffer, append_buffers, append_number_line, append_opening, append_word_line,
};
use crate::macros::Macro;
use crate::named::Named;
use executive_program::{Instr, SeqCode};
use syn_base::{OutOfMemory, append};

/// Appends the prologue of a sequence, and then its loop.
pub fn append_sequence(out: &mut Vec<u8>, named: &Named, code: &SeqCode) -> Result<(), OutOfMemory>
    ensures { OnOk result (out.new.items ≡ out.old.items ++ code_text (names_of named.now) code.now) }
{
    append_body(out, named, code.prologue.as_slice())?;
    append_word_line(out, Macro::Loop)?;
    append_body(out, named, code.turn.as_slice())?;
    append_word_line(out, Macro::EndLoop)
}

/// Appends the lines of these instructions.
fn append_body(out: &mut Vec<u8>, named: &Named, body: &[Instr]) -> Result<(), OutOfMemory>
    ensures { OnOk result (out.new.items ≡ out.old.items ++ body_text (names_of named.now) body.now) }
{
    for instr in body {
        append_instr(out, named, instr)?;
    }
    Ok(())
}

/// Appends the line of an instruction.
fn append_instr(out: &mut Vec<u8>, named: &Named, instr: &Instr) -> Result<(), OutOfMemory>
    ensures { OnOk result (out.new.items ≡ out.old.items ++ instr_line (names_of named.now) instr.now) }
{
    match instr {
        Instr::Suc0(pair) => append_number_line(out, Macro::Suc0, *pair),
        Instr::Suc1(pair) => append_number_line(out, Macro::Suc1, *pair),
        Instr::Pre0(pair) => append_number_line(out, Macro::Pre0, *pair),
        Instr::Pre1(pair) => append_number_line(out, Macro::Pre1, *pair),
        Instr::Call { vertex, ins, outs } => {
            append_call(out, named, *vertex, ins.as_slice(), outs.as_slice())
        }
        Instr::Send { buffer, to } => append_transfer(out, named, Macro::Send, *buffer, *to),
        Instr::Recv { buffer, from } => append_transfer(out, named, Macro::Recv, *buffer, *from),
        Instr::Sync { from, to } => append_sync(out, named, *from, *to),
    }
}

/// Appends an operation with the buffers that it reads and those that it writes.
fn append_call(
    out: &mut Vec<u8>,
    named: &Named,
    operation: u32,
    ins: &[u32],
    outs: &[u32],
) -> Result<(), OutOfMemory>
    ensures { OnOk result (out.new.items ≡ out.old.items ++ call_line (names_of named.now) operation ins.now outs.now) }
{
    append(out, b"op ")?;
    append(out, named.operation(operation))?;
    append(out, b"(")?;
    append_buffers(out, ins)?;
    append(out, b";")?;
    append_buffers(out, outs)?;
    append(out, b")\n")
}

/// Appends a send to an operator, or a receive from it.
fn append_transfer(
    out: &mut Vec<u8>,
    named: &Named,
    name: Macro,
    buffer: u32,
    operator: u32,
) -> Result<(), OutOfMemory>
    ensures { OnOk result (out.new.items ≡ out.old.items ++
        line name (buffer_name buffer ∷ operator_name (names_of named.now) operator ∷ [])) }
{
    append_opening(out, name)?;
    append_buffer(out, buffer as usize)?;
    append(out, b",")?;
    append(out, named.operator(operator as usize))?;
    append(out, b")\n")
}

/// Appends a wait for a transfer between two other operators.
fn append_sync(out: &mut Vec<u8>, named: &Named, from: u32, to: u32) -> Result<(), OutOfMemory>
    ensures { OnOk result (out.new.items ≡ out.old.items ++ instr_line (names_of named.now) (Instr.Sync from to)) }
{
    append_opening(out, Macro::Sync)?;
    append(out, named.operator(from as usize))?;
    append(out, b",")?;
    append(out, named.operator(to as usize))?;
    append(out, b")\n")
}
