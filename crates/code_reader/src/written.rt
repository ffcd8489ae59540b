//! Sequences as a text has them, whose numbers may be wide, and those of a program, whose numbers are not.
ghost use Rattle.std.specs.Prelude.{map};
ghost use Rattle.text_lines.specs.Refusals.{Has};
ghost use Rattle.code_reader.specs.Views.{code_of};
ghost use Rattle.code_lines.specs.Views.{instr_of};

use code_lines::Written;
use executive_program::{Instr, Seq, SeqCode};
use macro_code::CodeError;
use std::alloc::Global;
use syn_base::Items;

/// The code of a sequence.
#[derive(Drop)]
pub struct WrittenCode {
    pub seq: Seq,
    pub prologue: Items<Written>,
    pub turn: Items<Written>,
}

/// A number of the program. In a text whose buffers and pairs use the numbers from 0 on, each once, and that
/// keeps the limit on words, no number is too wide, and one that was would not fit into memory.
pub fn narrow(number: u64) -> Result<u32, CodeError>
    ensures { Has result number }
{
    if number <= u64::from(u32::MAX) {
        Ok(number as u32)
    } else {
        Err(CodeError::OutOfMemory)
    }
}

/// The numbers of a program.
fn narrow_all(alloc: Global, numbers: &[u64]) -> Result<Items<u32>, CodeError>
    ensures { Has result numbers.now }
{
    let mut narrowed = Vec::new(alloc);
    for number in numbers {
        narrowed.push(narrow(*number)?)?;
    }
    Ok(Items::new(narrowed))
}

/// The instruction of a program.
fn narrow_instr(alloc: Global, written: &Written) -> Result<Instr, CodeError>
    ensures { Has result (instr_of written.now) }
{
    match written {
        Written::Suc0(pair) => Ok(Instr::Suc0(narrow(*pair)?)),
        Written::Suc1(pair) => Ok(Instr::Suc1(narrow(*pair)?)),
        Written::Pre0(pair) => Ok(Instr::Pre0(narrow(*pair)?)),
        Written::Pre1(pair) => Ok(Instr::Pre1(narrow(*pair)?)),
        Written::Call { vertex, ins, outs } => {
            narrow_call(alloc, *vertex, ins.as_slice(), outs.as_slice())
        }
        Written::Send { buffer, to } => Ok(Instr::Send {
            buffer: narrow(*buffer)?,
            to: *to,
        }),
        Written::Recv { buffer, from } => Ok(Instr::Recv {
            buffer: narrow(*buffer)?,
            from: *from,
        }),
        Written::Sync { from, to } => Ok(Instr::Sync {
            from: *from,
            to: *to,
        }),
    }
}

/// The call of an operation in a program.
fn narrow_call(alloc: Global, vertex: u32, ins: &[u64], outs: &[u64]) -> Result<Instr, CodeError>
    ensures { Has result (Instr.Call vertex ins.now outs.now) }
{
    let ins = narrow_all(alloc, ins)?;
    let outs = narrow_all(alloc, outs)?;
    Ok(Instr::Call { vertex, ins, outs })
}

/// The instructions of a program.
fn narrow_body(alloc: Global, body: &[Written]) -> Result<Items<Instr>, CodeError>
    ensures { Has result (map instr_of body.now) }
{
    let mut instrs = Vec::new(alloc);
    for written in body {
        instrs.push(narrow_instr(alloc, written)?)?;
    }
    Ok(Items::new(instrs))
}

/// The code of a sequence of a program.
fn narrow_code(alloc: Global, code: &WrittenCode) -> Result<SeqCode, CodeError>
    ensures { Has result (code_of code.now) }
{
    let prologue = narrow_body(alloc, code.prologue.as_slice())?;
    let turn = narrow_body(alloc, code.turn.as_slice())?;
    Ok(SeqCode {
        seq: code.seq,
        prologue,
        turn,
    })
}

/// The codes of a program.
pub fn narrow_codes(alloc: Global, codes: &[WrittenCode]) -> Result<Items<SeqCode>, CodeError>
    ensures { Has result (map code_of codes.now) }
{
    let mut narrowed = Vec::new(alloc);
    for code in codes {
        narrowed.push(narrow_code(alloc, code)?)?;
    }
    Ok(Items::new(narrowed))
}
