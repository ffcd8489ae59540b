//! The check of pairs of semaphores by tables: each guards its buffer for its reader.
ghost use Rattle.std.specs.Prelude.{◌≡◌, ◌<◌, ◌&&◌, nat_eq, nat_lt, length, slice_get, IfOk};
ghost use Rattle.std.specs.List.{list_all};
ghost use Rattle.program_walks.specs.Pairs.{has_operator, is_read_between, is_written_between};
ghost use Rattle.executive_program.specs.WellFormed.{operator_of};
ghost use Rattle.executive_program.specs.Places.{writer_of, written_at};
ghost use Rattle.program_tables.specs.declared.roles.Role.TheVariants.{Read, Written};
ghost use Rattle.program_tables.specs.Marks.{first_at, lone, marks_of};
ghost use Rattle.program_walks.specs.Walks.{implies};
ghost use Rattle.program_tables.specs.Readings.{ArePairs};

use crate::mark_table::{Mark, MarkTable};
use crate::marks::find_marks;
use crate::queries::{Write, first_at, is_lone, write_of};
use crate::readings::Reading;
use crate::roles::Role;
use executive_program::Program;
use std::alloc::Global;
use syn_base::OutOfMemory;

/// Where the semaphores of each pair are waited for and signalled in the loops.
#[derive(Drop)]
pub struct PairTables {
    /// Where the writer waits for the empty one.
    pub empty_taken: MarkTable,
    /// Where the writer signals the full one.
    pub full_signalled: MarkTable,
    /// Where the reader waits for the full one.
    pub full_taken: MarkTable,
    /// Where the reader signals the empty one.
    pub empty_signalled: MarkTable,
}

/// The tables of the pairs of a program.
pub fn find_pairs(alloc: Global, program: &Program) -> Result<PairTables, OutOfMemory>
    ensures { IfOk result (ArePairs program.now) }
{
    let count = program.pairs.as_slice().len();
    Ok(PairTables {
        empty_taken: find_marks(alloc, program, Role::EmptyTaken, count)?,
        full_signalled: find_marks(alloc, program, Role::FullSignalled, count)?,
        full_taken: find_marks(alloc, program, Role::FullTaken, count)?,
        empty_signalled: find_marks(alloc, program, Role::EmptySignalled, count)?,
    })
}

/// Whether a pair and a buffer are there and belong to the same operator.
fn has_operator(program: &Program, pair: usize, buffer: usize) -> bool
    ensures { result ≡ has_operator (slice_get program.now.pairs pair) (operator_of program.now buffer) }
{
    match (
        program.pairs.as_slice().get(pair),
        program.buffers.as_slice().get(buffer),
    ) {
        (Some(operator), Some(found)) => *operator == found.operator,
        _ => false,
    }
}

/// Whether the writer alone takes the empty semaphore and signals the full one, each at one place, and writes between
/// them.
fn is_written_within(takes: &[Mark], signals: &[Mark], write: Write) -> bool
    ensures { result ≡ (lone write.writer takes.now && lone write.writer signals.now &&
        nat_lt (first_at takes.now) write.at && nat_lt write.at (first_at signals.now)) }
{
    is_lone(takes, write.writer)
        && is_lone(signals, write.writer)
        && first_at(takes) < write.at
        && write.at < first_at(signals)
}

/// Whether the writer waits for the empty semaphore of a pair at one place, writes at another, and signals the
/// full one at a third.
fn is_written_between(program: &Program, tables: &PairTables, pair: usize, write: Write) -> bool
    requires tables { ArePairs program.now tables.now }
    requires within { pair < length program.now.pairs }
    ensures { result ≡ is_written_between program.now pair write.writer write.at }
{
    is_written_within(
        tables.empty_taken.of(pair),
        tables.full_signalled.of(pair),
        write,
    )
}

/// The same of the first write of a buffer, which is found in the places at which it is written.
fn is_written_right(
    program: &Program,
    tables: &PairTables,
    pair: usize,
    buffer: usize,
    writes: &[Mark],
) -> bool
    requires tables { ArePairs program.now tables.now }
    requires within { pair < length program.now.pairs }
    requires writes { writes.now ≡ marks_of program.now Written buffer }
    ensures { result ≡ is_written_between program.now pair (writer_of program.now buffer)
        (written_at program.now buffer) }
{
    is_written_between(program, tables, pair, write_of(program, buffer, writes))
}

/// Whether those of these reads that are in a sequence stand between two places.
fn are_between(reads: &[Mark], sequence: usize, after: usize, before: usize) -> bool
    ensures { result ≡ list_all (λ m. implies (nat_eq m.sequence sequence) (nat_lt after m.at &&
        nat_lt m.at before)) reads.now }
{
    reads.iter().all(|mark| mark.sequence != sequence || (after < mark.at && mark.at < before))
}

/// Whether the reader alone takes the full semaphore and signals the empty one, each at one place, and reads between
/// them.
fn is_read_within(takes: &[Mark], signals: &[Mark], sequence: usize, reads: &[Mark]) -> bool
    ensures { result ≡ (lone sequence takes.now && lone sequence signals.now &&
        list_all (λ m. implies (nat_eq m.sequence sequence) (nat_lt (first_at takes.now) m.at &&
        nat_lt m.at (first_at signals.now))) reads.now) }
{
    is_lone(takes, sequence)
        && is_lone(signals, sequence)
        && are_between(reads, sequence, first_at(takes), first_at(signals))
}

/// Whether the reader waits for the full semaphore of a pair at one place, reads, and signals the empty one at
/// another.
fn is_read_between(
    program: &Program,
    tables: &PairTables,
    pair: usize,
    reading: Reading,
    reads: &[Mark],
) -> bool
    requires tables { ArePairs program.now tables.now }
    requires within { pair < length program.now.pairs }
    requires reads { reads.now ≡ marks_of program.now Read reading.buffer }
    ensures { result ≡ is_read_between program.now pair reading.buffer reading.sequence }
{
    is_read_within(
        tables.full_taken.of(pair),
        tables.empty_signalled.of(pair),
        reading.sequence,
        reads,
    )
}

/// Whether a pair is there, on its buffer's operator, and stands round the write and the reads. The tables have
/// the pairs of the program, and the places at which the buffer is written and read.
pub fn guards(
    program: &Program,
    tables: &PairTables,
    pair: usize,
    reading: Reading,
    writes: &[Mark],
    reads: &[Mark],
) -> bool
    requires tables { ArePairs program.now tables.now }
    requires writes { writes.now ≡ marks_of program.now Written reading.buffer }
    requires reads { reads.now ≡ marks_of program.now Read reading.buffer }
    ensures { result ≡ (nat_lt pair (length program.now.pairs) &&
        has_operator (slice_get program.now.pairs pair) (operator_of program.now reading.buffer) &&
        is_written_between program.now pair (writer_of program.now reading.buffer)
        (written_at program.now reading.buffer) &&
        is_read_between program.now pair reading.buffer reading.sequence) }
{
    pair < program.pairs.as_slice().len()
        && has_operator(program, pair, reading.buffer)
        && is_written_right(program, tables, pair, reading.buffer, writes)
        && is_read_between(program, tables, pair, reading, reads)
}
