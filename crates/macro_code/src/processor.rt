//! The text of one processor, for the whole text.
ghost use Rattle.std.specs.Prelude.{◌≡◌, ◌++◌, [], OnOk, IfOk, cond, map, nat_eq};
ghost use Rattle.std.specs.Fmt.{decimal};
ghost use Rattle.std.specs.List.{flat_map};
ghost use Rattle.macro_code.specs.declared.macros.Macro.TheVariants.{Semaphores};
ghost use Rattle.macro_code.specs.Text.{alloc_line, alloc_lines, declarations, line, main_text, medium_line, medium_lines, names_of, pairs_on, processor_text, sequences_text, thread_text};

use crate::arguments::{
    append_buffer, append_line, append_numbers, append_opening, append_word_line,
};
use crate::instruction::append_sequence;
use crate::macros::Macro;
use crate::named::Named;
use executive_program::{Buffer, Program, SeqCode};
use std::alloc::Global;
use syn_base::{OutOfMemory, append, append_count};

/// Appends the text of an operator.
pub fn append_processor(
    alloc: Global,
    out: &mut Vec<u8>,
    named: &Named,
    program: &Program,
    operator: usize,
) -> Result<(), OutOfMemory>
    ensures { OnOk result (out.new.items ≡ out.old.items ++ processor_text (names_of named.now) program.now operator) }
{
    append_line(out, Macro::Processor, named.operator(operator))?;
    append_declarations(alloc, out, program, operator)?;
    append_sequences(out, named, program.seqs.as_slice(), operator)
}

/// Appends the pairs of an operator, and then its buffers.
fn append_declarations(
    alloc: Global,
    out: &mut Vec<u8>,
    program: &Program,
    operator: usize,
) -> Result<(), OutOfMemory>
    ensures { OnOk result (out.new.items ≡ out.old.items ++
        declarations operator program.now.pairs program.now.buffers) }
{
    append_semaphores(alloc, out, program.pairs.as_slice(), operator)?;
    append_allocs(out, program.buffers.as_slice(), operator)
}

/// Appends the threads of an operator, and then its main part.
fn append_sequences(
    out: &mut Vec<u8>,
    named: &Named,
    seqs: &[SeqCode],
    operator: usize,
) -> Result<(), OutOfMemory>
    ensures { OnOk result (out.new.items ≡ out.old.items ++ sequences_text (names_of named.now) seqs.now operator) }
{
    append_threads(out, named, seqs, operator)?;
    append_mains(out, named, seqs, operator)
}

/// Appends the pairs of an operator.
fn append_semaphores(
    alloc: Global,
    out: &mut Vec<u8>,
    pairs: &[u32],
    operator: usize,
) -> Result<(), OutOfMemory>
    ensures { OnOk result (out.new.items ≡ out.old.items ++
        line Semaphores (map decimal (pairs_on operator 0 pairs.now))) }
{
    let numbers = pairs_on(alloc, pairs, operator)?;
    append_opening(out, Macro::Semaphores)?;
    append_numbers(out, &numbers)?;
    append(out, b")\n")
}

/// The numbers of the pairs of an operator.
fn pairs_on(alloc: Global, pairs: &[u32], operator: usize) -> Result<Vec<usize>, OutOfMemory>
    ensures { IfOk result (λ numbers. numbers.items ≡ pairs_on operator 0 pairs.now) }
{
    let mut numbers = Vec::new(alloc);
    for (number, pair) in pairs.iter().enumerate() {
        if *pair as usize == operator {
            numbers.push(number)?;
        }
    }
    Ok(numbers)
}

/// Appends the buffers of an operator.
fn append_allocs(out: &mut Vec<u8>, buffers: &[Buffer], operator: usize) -> Result<(), OutOfMemory>
    ensures { OnOk result (out.new.items ≡ out.old.items ++ alloc_lines operator 0 buffers.now) }
{
    for (number, buffer) in buffers.iter().enumerate() {
        append_alloc(out, number, *buffer, operator)?;
    }
    Ok(())
}

/// Appends a buffer, if it is one of the operator.
fn append_alloc(
    out: &mut Vec<u8>,
    number: usize,
    buffer: Buffer,
    operator: usize,
) -> Result<(), OutOfMemory>
    ensures { OnOk result (out.new.items ≡ out.old.items ++
        cond (nat_eq buffer.operator operator) (alloc_line number buffer) []) }
{
    if buffer.operator as usize == operator {
        append_declaration(out, number, buffer)
    } else {
        Ok(())
    }
}

/// Appends the line of a buffer: its name, its length, and its places where it has several.
fn append_declaration(out: &mut Vec<u8>, number: usize, buffer: Buffer) -> Result<(), OutOfMemory>
    ensures { OnOk result (out.new.items ≡ out.old.items ++ alloc_line number buffer) }
{
    append_opening(out, Macro::Alloc)?;
    append_buffer(out, number)?;
    append(out, b",")?;
    append_count(out, buffer.len as usize)?;
    if buffer.depth > 1 {
        append(out, b",")?;
        append_count(out, buffer.depth as usize)?;
    }
    append(out, b")\n")
}

/// Appends the threads of an operator, one for each of its communicators.
fn append_threads(
    out: &mut Vec<u8>,
    named: &Named,
    seqs: &[SeqCode],
    operator: usize,
) -> Result<(), OutOfMemory>
    ensures { OnOk result (out.new.items ≡ out.old.items ++
        flat_map (thread_text (names_of named.now) operator) seqs.now) }
{
    for code in seqs {
        append_thread(out, named, code, operator)?;
    }
    Ok(())
}

/// Appends the thread of a sequence, if it is a communicator of the operator.
fn append_thread(
    out: &mut Vec<u8>,
    named: &Named,
    code: &SeqCode,
    operator: usize,
) -> Result<(), OutOfMemory>
    ensures { OnOk result (out.new.items ≡ out.old.items ++ thread_text (names_of named.now) operator code.now) }
{
    match code.seq.medium {
        Some(medium) if code.seq.operator as usize == operator => {
            append_line(out, Macro::Thread, named.medium(medium))?;
            append_sequence(out, named, code)?;
            append_word_line(out, Macro::EndThread)
        }
        _ => Ok(()),
    }
}

/// Appends the main parts of an operator: a program has one computation sequence for each operator.
fn append_mains(
    out: &mut Vec<u8>,
    named: &Named,
    seqs: &[SeqCode],
    operator: usize,
) -> Result<(), OutOfMemory>
    ensures { OnOk result (out.new.items ≡ out.old.items ++
        flat_map (main_text (names_of named.now) seqs.now operator) seqs.now) }
{
    for code in seqs {
        append_main(out, named, seqs, code, operator)?;
    }
    Ok(())
}

/// Appends the main part of a sequence, if it is the computation sequence of the operator.
fn append_main(
    out: &mut Vec<u8>,
    named: &Named,
    seqs: &[SeqCode],
    code: &SeqCode,
    operator: usize,
) -> Result<(), OutOfMemory>
    ensures { OnOk result (out.new.items ≡ out.old.items ++ main_text (names_of named.now) seqs.now operator code.now) }
{
    if code.seq.operator as usize != operator || code.seq.medium.is_some() {
        return Ok(());
    }
    append_word_line(out, Macro::Main)?;
    append_medium_lines(out, named, Macro::SpawnThread, seqs, operator)?;
    append_sequence(out, named, code)?;
    append_medium_lines(out, named, Macro::WaitEndThread, seqs, operator)?;
    append_word_line(out, Macro::EndMain)
}

/// Appends a line of this macro for each communicator of an operator.
fn append_medium_lines(
    out: &mut Vec<u8>,
    named: &Named,
    name: Macro,
    seqs: &[SeqCode],
    operator: usize,
) -> Result<(), OutOfMemory>
    ensures { OnOk result (out.new.items ≡ out.old.items ++ medium_lines (names_of named.now) name operator seqs.now) }
{
    for code in seqs {
        append_medium_line(out, named, name, code, operator)?;
    }
    Ok(())
}

/// Appends a line of this macro, if the sequence is a communicator of the operator.
fn append_medium_line(
    out: &mut Vec<u8>,
    named: &Named,
    name: Macro,
    code: &SeqCode,
    operator: usize,
) -> Result<(), OutOfMemory>
    ensures { OnOk result (out.new.items ≡ out.old.items ++ medium_line (names_of named.now) name operator code.now) }
{
    match code.seq.medium {
        Some(medium) if code.seq.operator as usize == operator => {
            append_line(out, name, named.medium(medium))
        }
        _ => Ok(()),
    }
}
