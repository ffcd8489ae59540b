//! The check of buffers: each is written once, touched on its own operator alone, and deep only where a pair guards
//! it.
ghost use Rattle.std.specs.Prelude.{◌≡◌, ◌&&◌, nat_eq, nat_lt, slice_get};
ghost use Rattle.std.specs.List.{list_all};
ghost use Rattle.executive_program.specs.Instructions.{is_guarded, reads, turn};
ghost use Rattle.program_walks.specs.Walks.{all_at, implies};
ghost use Rattle.program_walks.specs.Buffers.{are_buffers, has_places, is_buffer, is_buffer_at, is_near, is_operator, is_written_first, is_written_once, touches, writes_at, writes_only};

use crate::instructions::{reads, writes};
use crate::parts::{depth_of, turn_of};
use crate::searches::{is_entry, output_at, waits_for, writer_of, written_at};
use executive_program::{Instr, Program};

/// Where a buffer is written: its sequence, its place there, and the number of the output.
#[derive(Clone, Copy, Drop)]
struct Written {
    writer: usize,
    at: usize,
    port: usize,
}

/// Whether the write of a buffer is there.
fn is_written(list: &[Instr], buffer: usize, written: Written) -> bool
    ensures { result ≡ writes_at buffer written.port (slice_get list.now written.at) }
{
    match list.get(written.at) {
        Some(Instr::Call { outs, .. }) => is_entry(outs.as_slice(), written.port, buffer),
        Some(
            Instr::Recv {
                buffer: received,
                ..
            },
        ) => { *received as usize == buffer && written.port == 0 }
        _ => false,
    }
}

/// Whether a buffer stands among the outputs of a call only as the output `port`, and only if the call stands here.
fn outputs_only(outs: &[u32], buffer: usize, port: usize, here: bool) -> bool
    ensures { result ≡ all_at (λ k c. implies (nat_eq c buffer) (here && nat_eq k port)) 0 outs.now }
{
    for (place, entry) in outs.iter().enumerate() {
        if *entry as usize == buffer && !(here && place == port) {
            return false;
        }
    }
    true
}

/// Whether an instruction writes a buffer only if it stands here, and as that output.
fn writes_only(instr: &Instr, buffer: usize, port: usize, here: bool) -> bool
    ensures { result ≡ writes_only buffer port here instr.now }
{
    match instr {
        Instr::Call { outs, .. } => outputs_only(outs.as_slice(), buffer, port, here),
        Instr::Recv {
            buffer: received,
            ..
        } => { *received as usize != buffer || (here && port == 0) }
        _ => true,
    }
}

/// Whether none of these instructions of a sequence writes a buffer, apart from the write that is known.
fn all_write_only(list: &[Instr], sequence: usize, buffer: usize, written: Written) -> bool
    ensures { result ≡ all_at (λ a x. writes_only buffer written.port
        (nat_eq sequence written.writer && nat_eq a written.at) x) 0 list.now }
{
    for (at, instr) in list.iter().enumerate() {
        let here = sequence == written.writer && at == written.at;
        if !writes_only(instr, buffer, written.port, here) {
            return false;
        }
    }
    true
}

/// Whether a buffer is written there alone.
fn is_written_once(program: &Program, buffer: usize, written: Written) -> bool
    ensures { result ≡ is_written_once program.now buffer written.writer written.at written.port }
{
    for (sequence, code) in program.seqs.as_slice().iter().enumerate() {
        if !all_write_only(code.turn.as_slice(), sequence, buffer, written) {
            return false;
        }
    }
    true
}

/// Whether an instruction writes or reads a buffer.
fn touches(instr: &Instr, buffer: usize) -> bool
    ensures { result ≡ touches buffer instr.now }
{
    writes(instr, buffer) || reads(instr, buffer)
}

/// Whether a buffer is there and belongs to an operator.
fn is_on_operator(program: &Program, buffer: usize, operator: u32) -> bool
    ensures { result ≡ is_operator (slice_get program.now.buffers buffer) operator }
{
    match program.buffers.as_slice().get(buffer) {
        Some(found) => found.operator == operator,
        None => false,
    }
}

/// Whether none of these instructions touches a buffer, or the buffer is near.
fn all_near(list: &[Instr], buffer: usize, near: bool) -> bool
    ensures { result ≡ list_all (λ x. implies (touches buffer x) near) list.now }
{
    list.iter().all(|instr| !touches(instr, buffer) || near)
}

/// Whether these instructions, of a sequence of an operator, touch a buffer only if it belongs to this operator.
fn near_in(program: &Program, list: &[Instr], buffer: usize, operator: u32) -> bool
    ensures { result ≡ list_all (λ x. implies (touches buffer x)
        (is_operator (slice_get program.now.buffers buffer) operator)) list.now }
{
    all_near(list, buffer, is_on_operator(program, buffer, operator))
}

/// Whether a buffer is touched on its own operator alone.
fn is_near(program: &Program, buffer: usize) -> bool
    ensures { result ≡ is_near program.now buffer }
{
    program.seqs.as_slice().iter().all(|code| near_in(
        program,
        code.turn.as_slice(),
        buffer,
        code.seq.operator,
    ))
}

/// Whether these instructions read a buffer only after this place.
fn all_read_after(list: &[Instr], buffer: usize, written_at: usize) -> bool
    ensures { result ≡ all_at (λ a x. implies (reads buffer x) (nat_lt written_at a)) 0 list.now }
{
    for (at, instr) in list.iter().enumerate() {
        if reads(instr, buffer) && at <= written_at {
            return false;
        }
    }
    true
}

/// Whether its writer reads a buffer only after it wrote it.
fn is_written_first(program: &Program, buffer: usize, written: Written) -> bool
    ensures { result ≡ is_written_first program.now buffer written.writer written.at }
{
    all_read_after(turn_of(program, written.writer), buffer, written.at)
}

/// Whether a pair guards a buffer: some sequence reads it and does not write it.
fn is_guarded(program: &Program, buffer: usize) -> bool
    ensures { result ≡ is_guarded program.now buffer }
{
    program
        .seqs
        .as_slice()
        .iter()
        .any(|code| waits_for(code, buffer))
}

/// Whether a buffer has one to four places, and one where no pair guards it.
fn has_places(program: &Program, buffer: usize) -> bool
    ensures { result ≡ has_places program.now buffer }
{
    let depth = depth_of(program, buffer);
    1 <= depth && depth <= 4 && (depth == 1 || is_guarded(program, buffer))
}

/// Whether a buffer is right, where this is its write.
fn is_right_at(program: &Program, buffer: usize, written: Written) -> bool
    ensures { result ≡ is_buffer_at program.now buffer written.writer written.at written.port }
{
    is_written(turn_of(program, written.writer), buffer, written)
        && is_written_once(program, buffer, written)
        && is_near(program, buffer)
        && is_written_first(program, buffer, written)
        && has_places(program, buffer)
}

/// Whether a buffer is written once, touched on its own operator alone, written before it is read where one
/// sequence does both, and has one to four places, one where no pair guards it.
fn is_right(program: &Program, buffer: usize) -> bool
    ensures { result ≡ is_buffer program.now buffer }
{
    let writer = writer_of(program, buffer);
    let at = written_at(program, buffer);
    let port = output_at(turn_of(program, writer), at, buffer);
    is_right_at(program, buffer, Written { writer, at, port })
}

/// Whether all buffers are right.
pub fn are_right(program: &Program) -> bool
    ensures { result ≡ are_buffers program.now }
{
    (0..program.buffers.as_slice().len()).all(|buffer| is_right(program, buffer))
}
