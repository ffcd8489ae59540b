//! The readings of buffers by sequences that do not write them: one pair of semaphores is to be there for each.
ghost use Rattle.std.specs.Prelude.{◌≡◌, ℕ, ◌<◌, ◌++◌, length, None, IfOk, OnOk};
ghost use Rattle.program_tables.specs.MarkRows.{row};
ghost use Rattle.program_tables.specs.declared.roles.Role.TheVariants.{Read, Written};
ghost use Rattle.program_tables.specs.Marks.{marks_of};
ghost use Rattle.program_tables.specs.Readings.{is_new, readings, readings_in};

use crate::buffers::is_in;
use crate::mark_table::{Mark, MarkTable};
use executive_program::Program;
use std::alloc::Global;
use syn_base::OutOfMemory;

/// A buffer with a sequence that reads it and does not write it.
#[derive(Clone, Copy, Drop)]
pub struct Reading {
    pub buffer: usize,
    pub sequence: usize,
}

/// Whether a sequence is not the one that was looked at last.
fn is_new(last: Option<usize>, sequence: usize) -> bool
    ensures { result ≡ is_new last sequence }
{
    match last {
        Some(last) => last != sequence,
        None => true,
    }
}

/// Adds a buffer with each sequence that reads it and does not write it.
fn push_readings(
    out: &mut Vec<Reading>,
    buffer: usize,
    writes: &[Mark],
    reads: &[Mark],
) -> Result<(), OutOfMemory>
    ensures { OnOk result (out.new.items ≡ out.old.items ++ readings_in buffer writes.now None reads.now) }
{
    let mut last = None;
    for mark in reads {
        let sequence = mark.sequence;
        if is_new(last, sequence) && !is_in(writes, sequence) {
            out.push(Reading { buffer, sequence })?;
        }
        last = Some(sequence);
    }
    Ok(())
}

/// Each buffer with each sequence that reads it and does not write it, by buffer and then by sequence. The tables
/// have the places at which each buffer is written and read.
pub fn find_readings(
    alloc: Global,
    program: &Program,
    writes: &MarkTable,
    reads: &MarkTable,
) -> Result<Vec<Reading>, OutOfMemory>
    requires writes { (b : ℕ) → b < length program.now.buffers → row writes.now b ≡ marks_of program.now Written b }
    requires reads { (b : ℕ) → b < length program.now.buffers → row reads.now b ≡ marks_of program.now Read b }
    ensures { IfOk result (λ list. list.items ≡ readings program.now) }
{
    let mut list = Vec::new(alloc);
    for buffer in 0..program.buffers.as_slice().len() {
        push_readings(&mut list, buffer, writes.of(buffer), reads.of(buffer))?;
    }
    Ok(list)
}
