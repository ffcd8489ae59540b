//! The check of buffers by tables: each is written once, touched on its own operator alone, and deep only where
//! another sequence reads it.
ghost use Rattle.std.specs.Prelude.{◌≡◌, ℕ, ◌<◌, ◌&&◌, nat_eq, nat_lt, length, slice_get};
ghost use Rattle.std.specs.List.{list_all, list_any};
ghost use Rattle.program_walks.specs.Buffers.{are_buffers, has_places, is_buffer, is_buffer_at, is_near, is_operator, is_written_first, is_written_once, writes_at};
ghost use Rattle.executive_program.specs.Instructions.{is_guarded, operator};
ghost use Rattle.program_tables.specs.MarkRows.{row};
ghost use Rattle.program_tables.specs.declared.roles.Role.TheVariants.{Read, Written};
ghost use Rattle.program_tables.specs.Marks.{marks_of};
ghost use Rattle.program_walks.specs.Walks.{implies};

use crate::mark_table::{Mark, MarkTable};
use crate::queries::{Write, write_of};
use executive_program::{Instr, Program};
use program_walks::{depth_of, is_entry, operator_of, turn_of};

/// Whether the write of a buffer is there.
fn is_written(list: &[Instr], buffer: usize, write: Write) -> bool
    ensures { result ≡ writes_at buffer write.port (slice_get list.now write.at) }
{
    match list.get(write.at) {
        Some(Instr::Call { outs, .. }) => is_entry(outs.as_slice(), write.port, buffer),
        Some(
            Instr::Recv {
                buffer: received,
                ..
            },
        ) => { *received as usize == buffer && write.port == 0 }
        _ => false,
    }
}

/// Whether all these writes of a buffer are this one.
fn are_one(writes: &[Mark], write: Write) -> bool
    ensures { result ≡ list_all (λ m. nat_eq m.sequence write.writer && nat_eq m.at write.at &&
        nat_eq m.port write.port) writes.now }
{
    writes.iter().all(|mark| {
        mark.sequence == write.writer && mark.at == write.at && mark.port == write.port
    })
}

/// Whether a buffer is written there alone.
fn is_written_once(program: &Program, buffer: usize, writes: &[Mark], write: Write) -> bool
    requires { writes.now ≡ marks_of program.now Written buffer }
    ensures { result ≡ is_written_once program.now buffer write.writer write.at write.port }
{
    are_one(writes, write)
}

/// Whether a buffer is there and belongs to an operator.
fn is_on_operator(program: &Program, buffer: usize, operator: u32) -> bool
    ensures { result ≡ is_operator (slice_get program.now.buffers buffer) operator }
{
    match program.buffers.as_slice().get(buffer) {
        Some(found) => found.operator == operator,
        None => false,
    }
}

/// Whether a place is on the operator of a buffer.
fn is_mark_near(program: &Program, buffer: usize, mark: Mark) -> bool
    ensures { result ≡ is_operator (slice_get program.now.buffers buffer) (operator program.now mark.sequence) }
{
    is_on_operator(program, buffer, operator_of(program, mark.sequence))
}

/// Whether these places are on the operator of a buffer.
fn are_near(program: &Program, buffer: usize, marks: &[Mark]) -> bool
    ensures { result ≡ list_all (λ m. is_operator (slice_get program.now.buffers buffer)
        (operator program.now m.sequence)) marks.now }
{
    marks
        .iter()
        .all(|mark| is_mark_near(program, buffer, *mark))
}

/// Whether the places at which a buffer is written, and those at which it is read, are on its operator.
fn both_near(program: &Program, buffer: usize, writes: &[Mark], reads: &[Mark]) -> bool
    ensures { result ≡ (list_all (λ m. is_operator (slice_get program.now.buffers buffer)
        (operator program.now m.sequence)) writes.now &&
        list_all (λ m. is_operator (slice_get program.now.buffers buffer)
        (operator program.now m.sequence)) reads.now) }
{
    are_near(program, buffer, writes) && are_near(program, buffer, reads)
}

/// Whether a buffer is touched on its own operator alone.
fn is_near(program: &Program, buffer: usize, writes: &[Mark], reads: &[Mark]) -> bool
    requires writes { writes.now ≡ marks_of program.now Written buffer }
    requires reads { reads.now ≡ marks_of program.now Read buffer }
    ensures { result ≡ is_near program.now buffer }
{
    both_near(program, buffer, writes, reads)
}

/// Whether those of these reads that are in the writer's loop stand after the write.
fn are_after(reads: &[Mark], write: Write) -> bool
    ensures { result ≡ list_all (λ m. implies (nat_eq m.sequence write.writer) (nat_lt write.at m.at)) reads.now }
{
    reads
        .iter()
        .all(|mark| mark.sequence != write.writer || write.at < mark.at)
}

/// Whether its writer reads a buffer only after it wrote it.
fn is_written_first(program: &Program, buffer: usize, reads: &[Mark], write: Write) -> bool
    requires { reads.now ≡ marks_of program.now Read buffer }
    ensures { result ≡ is_written_first program.now buffer write.writer write.at }
{
    are_after(reads, write)
}

/// Whether one of these places is in a sequence.
pub fn is_in(writes: &[Mark], sequence: usize) -> bool
    ensures { result ≡ list_any (λ w. nat_eq w.sequence sequence) writes.now }
{
    writes.iter().any(|mark| mark.sequence == sequence)
}

/// Whether each sequence that reads a buffer writes it as well.
fn are_own(writes: &[Mark], reads: &[Mark]) -> bool
    ensures { result ≡ list_all (λ r. list_any (λ w. nat_eq w.sequence r.sequence) writes.now) reads.now }
{
    reads.iter().all(|mark| is_in(writes, mark.sequence))
}

/// Whether a sequence reads a buffer that it does not write.
fn is_guarded(program: &Program, buffer: usize, writes: &[Mark], reads: &[Mark]) -> bool
    requires writes { writes.now ≡ marks_of program.now Written buffer }
    requires reads { reads.now ≡ marks_of program.now Read buffer }
    ensures { result ≡ is_guarded program.now buffer }
{
    !are_own(writes, reads)
}

/// Whether a buffer has one to four places, and one where no other sequence reads it.
fn has_places(program: &Program, buffer: usize, writes: &[Mark], reads: &[Mark]) -> bool
    requires writes { writes.now ≡ marks_of program.now Written buffer }
    requires reads { reads.now ≡ marks_of program.now Read buffer }
    ensures { result ≡ has_places program.now buffer }
{
    let depth = depth_of(program, buffer);
    1 <= depth && depth <= 4 && (depth == 1 || is_guarded(program, buffer, writes, reads))
}

/// Whether a buffer is right, where this is its write.
fn is_right_at(
    program: &Program,
    buffer: usize,
    writes: &[Mark],
    reads: &[Mark],
    write: Write,
) -> bool
    requires writes { writes.now ≡ marks_of program.now Written buffer }
    requires reads { reads.now ≡ marks_of program.now Read buffer }
    ensures { result ≡ is_buffer_at program.now buffer write.writer write.at write.port }
{
    is_written(turn_of(program, write.writer), buffer, write)
        && is_written_once(program, buffer, writes, write)
        && is_near(program, buffer, writes, reads)
        && is_written_first(program, buffer, reads, write)
        && has_places(program, buffer, writes, reads)
}

/// Whether a buffer is written once, touched on its own operator alone, written before it is read where one sequence
/// does both, and has as many places as it may have.
fn is_right(program: &Program, buffer: usize, writes: &[Mark], reads: &[Mark]) -> bool
    requires writes { writes.now ≡ marks_of program.now Written buffer }
    requires reads { reads.now ≡ marks_of program.now Read buffer }
    ensures { result ≡ is_buffer program.now buffer }
{
    is_right_at(
        program,
        buffer,
        writes,
        reads,
        write_of(program, buffer, writes),
    )
}

/// Whether each buffer is written once, touched on its own operator alone, written before it is read where one
/// sequence does both, and has one to four places, one where no other sequence reads it. The tables have the
/// places at which each buffer is written and read.
pub fn are_buffers(program: &Program, writes: &MarkTable, reads: &MarkTable) -> bool
    requires writes { (b : ℕ) → b < length program.now.buffers → row writes.now b ≡ marks_of program.now Written b }
    requires reads { (b : ℕ) → b < length program.now.buffers → row reads.now b ≡ marks_of program.now Read b }
    ensures { result ≡ are_buffers program.now }
{
    for buffer in 0..program.buffers.as_slice().len() {
        if !is_right(program, buffer, writes.of(buffer), reads.of(buffer)) {
            return false;
        }
    }
    true
}
