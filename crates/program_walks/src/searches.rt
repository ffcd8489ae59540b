//! Searches over a program: an instruction is named by its sequence and its place in its loop.
ghost use Rattle.std.specs.Prelude.{◌≡◌, nat_eq, slice_get};
ghost use Rattle.std.specs.List.{list_any, position_or_len};
ghost use Rattle.executive_program.specs.Instructions.{is_communication, reads, waits_for, writes};
ghost use Rattle.executive_program.specs.MicroSteps.{is_on, transfers};
ghost use Rattle.program_walks.specs.Walks.{names};
ghost use Rattle.executive_program.specs.Places.{caller_of, calls, communication_at, output_at, writer_of, written_at};

use crate::instructions::{calls, count_communications, is_communication, reads, writes};
use crate::parts::turn_of;
use executive_program::{Instr, Program, SeqCode};

/// Whether one of these instructions writes a buffer.
pub fn is_written(list: &[Instr], buffer: usize) -> bool
    ensures { result ≡ list_any (writes buffer) list.now }
{
    list.iter().any(|instr| writes(instr, buffer))
}

/// The first of these instructions that writes a buffer, or their number.
pub fn first_write(list: &[Instr], buffer: usize) -> usize
    ensures { result ≡ position_or_len (writes buffer) list.now }
{
    for (place, instr) in list.iter().enumerate() {
        if writes(instr, buffer) {
            return place;
        }
    }
    list.len()
}

/// The first sequence that writes a buffer, or their number.
pub fn writer_of(program: &Program, buffer: usize) -> usize
    ensures { result ≡ writer_of program.now buffer }
{
    let seqs = program.seqs.as_slice();
    for (sequence, code) in seqs.iter().enumerate() {
        if is_written(code.turn.as_slice(), buffer) {
            return sequence;
        }
    }
    seqs.len()
}

/// The place of the write of a buffer in its writer's loop.
pub fn written_at(program: &Program, buffer: usize) -> usize
    ensures { result ≡ written_at program.now buffer }
{
    first_write(turn_of(program, writer_of(program, buffer)), buffer)
}

/// Whether one of these instructions calls an operation.
pub fn is_called(list: &[Instr], operation: usize) -> bool
    ensures { result ≡ list_any (calls operation) list.now }
{
    list.iter().any(|instr| calls(instr, operation))
}

/// The first of these instructions that calls an operation, or their number.
pub fn first_call(list: &[Instr], operation: usize) -> usize
    ensures { result ≡ position_or_len (calls operation) list.now }
{
    for (place, instr) in list.iter().enumerate() {
        if calls(instr, operation) {
            return place;
        }
    }
    list.len()
}

/// The first sequence that calls an operation, or their number.
pub fn caller_of(program: &Program, operation: usize) -> usize
    ensures { result ≡ caller_of program.now operation }
{
    let seqs = program.seqs.as_slice();
    for (sequence, code) in seqs.iter().enumerate() {
        if is_called(code.turn.as_slice(), operation) {
            return sequence;
        }
    }
    seqs.len()
}

/// The place of a communication among these instructions, by its number, or their number.
pub fn communication_at(list: &[Instr], number: usize) -> usize
    ensures { result ≡ communication_at list.now number }
{
    let mut left = number;
    for (place, instr) in list.iter().enumerate() {
        if is_communication(instr) {
            if left == 0 {
                return place;
            }
            left -= 1;
        }
    }
    list.len()
}

/// Whether a communicator's medium is this one.
pub fn is_on(medium: usize, found: Option<u32>) -> bool
    ensures { result ≡ is_on medium found }
{
    match found {
        Some(found) => found as usize == medium,
        None => false,
    }
}

/// The communications of the first communicator of a medium.
pub fn transfers(program: &Program, medium: usize) -> usize
    ensures { result ≡ transfers program.now medium }
{
    for code in program.seqs.as_slice() {
        if is_on(medium, code.seq.medium) {
            return count_communications(code.turn.as_slice());
        }
    }
    0
}

/// The first place at which a buffer stands among the outputs of a call, or their number.
fn first_output(outs: &[u32], buffer: usize) -> usize
    ensures { result ≡ position_or_len (λ c. nat_eq c buffer) outs.now }
{
    for (place, entry) in outs.iter().enumerate() {
        if *entry as usize == buffer {
            return place;
        }
    }
    outs.len()
}

/// The number of the output as which an instruction writes a buffer.
pub fn output_at(list: &[Instr], at: usize, buffer: usize) -> usize
    ensures { result ≡ output_at buffer (slice_get list.now at) }
{
    match list.get(at) {
        Some(Instr::Call { outs, .. }) => first_output(outs.as_slice(), buffer),
        _ => 0,
    }
}

/// Whether a number stands at a place.
pub fn is_entry(list: &[u32], place: usize, number: usize) -> bool
    ensures { result ≡ names (slice_get list.now place) number }
{
    match list.get(place) {
        Some(entry) => *entry as usize == number,
        None => false,
    }
}

/// Whether one of these instructions reads a buffer.
fn is_read(list: &[Instr], buffer: usize) -> bool
    ensures { result ≡ list_any (reads buffer) list.now }
{
    list.iter().any(|instr| reads(instr, buffer))
}

/// Whether a sequence reads a buffer that another one writes.
pub fn waits_for(code: &SeqCode, buffer: usize) -> bool
    ensures { result ≡ waits_for buffer code.now }
{
    is_read(code.turn.as_slice(), buffer) && !is_written(code.turn.as_slice(), buffer)
}
