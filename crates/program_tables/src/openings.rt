//! The check of prologues: they signal the empty semaphores as often as their buffers have places.
ghost use Rattle.std.specs.Prelude.{◌≡◌, ◌+◌, ◌<◌, true, false, length, replicate, IfOk};
ghost use Rattle.std.specs.List.{list_all};
ghost use Rattle.executive_program.specs.Instructions.{prologue, readers};
ghost use Rattle.executive_program.specs.Places.{signals_empty, AreOpened};
ghost use Rattle.program_walks.specs.Walks.{all_below};
ghost use Rattle.program_tables.specs.Openings.{IsPassed, is_at_end, opens_next, reading_at};
ghost use Rattle.program_tables.specs.Readings.{readings};

use crate::readings::Reading;
use executive_program::{Instr, Program};
use program_walks::{depth_of, signals_empty};
use std::alloc::Global;
use syn_base::OutOfMemory;

/// The prologue of a sequence, empty for one that is not there.
fn prologue_of(program: &Program, sequence: usize) -> &[Instr]
    ensures { result.now ≡ prologue program.now sequence }
{
    match program.seqs.as_slice().get(sequence) {
        Some(code) => code.prologue.as_slice(),
        None => &[],
    }
}

/// Whether all these instructions signal the empty semaphore of a pair.
fn are_signals(list: &[Instr], pair: usize) -> bool
    ensures { result ≡ list_all (signals_empty pair) list.now }
{
    list.iter().all(|instr| signals_empty(instr, pair))
}

/// Whether a list begins with this many signals of the empty semaphore of a pair.
fn opens_next(list: &[Instr], count: usize, pair: usize) -> bool
    ensures { result ≡ opens_next pair count list.now }
{
    count <= list.len() && are_signals(list.split_at(count).0, pair)
}

/// Passes over the signals of one pair in the prologue of its reader, if they are there.
fn pass(program: &Program, pair: usize, reading: Reading, passed: &mut [usize]) -> bool
    requires before { IsPassed program.now pair passed.old }
    requires here { reading ≡ reading_at program.now pair }
    requires within { pair < length (readers program.now) }
    ensures opened { result ≡ true → IsPassed program.now (pair + 1) passed.new }
    ensures closed { result ≡ false → AreOpened program.now → ⊥ }
{
    let sequence = reading.sequence;
    if sequence >= passed.len() {
        return true;
    }
    let count = depth_of(program, reading.buffer) as usize;
    let from = passed[sequence];
    if !opens_next(prologue_of(program, sequence).split_at(from).1, count, pair) {
        return false;
    }
    passed[sequence] = from + count;
    true
}

/// Passes over the signals of all pairs in the prologues of their readers, if they are there.
fn pass_all(program: &Program, found: &[Reading], passed: &mut [usize]) -> bool
    requires before { IsPassed program.now 0 passed.old }
    requires here { found.now ≡ readings program.now }
    ensures opened { result ≡ true → IsPassed program.now (length found.now) passed.new }
    ensures closed { result ≡ false → AreOpened program.now → ⊥ }
{
    for (pair, reading) in found.iter().enumerate() {
        if !pass(program, pair, *reading, passed) {
            return false;
        }
    }
    true
}

/// Whether all of the prologue of a sequence was passed.
fn is_at_end(program: &Program, passed: &[usize], sequence: usize) -> bool
    ensures { result ≡ is_at_end program.now passed.now sequence }
{
    let count = match passed.get(sequence) {
        Some(count) => *count,
        None => 0,
    };
    count == prologue_of(program, sequence).len()
}

/// Whether all of each prologue was passed.
fn are_at_end(program: &Program, passed: &[usize]) -> bool
    ensures { result ≡ all_below (is_at_end program.now passed.now) (length program.now.seqs) }
{
    (0..program.seqs.as_slice().len()).all(|sequence| is_at_end(program, passed, sequence))
}

/// The counts before anything was passed: as many zeros.
fn no_counts(alloc: Global, count: usize) -> Result<Vec<usize>, OutOfMemory>
    ensures { IfOk result (λ passed. passed.items ≡ replicate count 0) }
{
    let mut passed = Vec::new(alloc);
    for _count in 0..count {
        passed.push(0)?;
    }
    Ok(passed)
}

/// Whether each prologue has, for each pair of which its sequence is the reader, by number, a signal of the empty
/// semaphore for each place of the buffer, and nothing else. The readings that were found are those of the program.
pub fn are_opened(alloc: Global, program: &Program, found: &[Reading]) -> Result<bool, OutOfMemory>
    requires { found.now ≡ readings program.now }
    ensures opened { IfOk result (λ told. told ≡ true → AreOpened program.now) }
    ensures closed { IfOk result (λ told. told ≡ false → AreOpened program.now → ⊥) }
{
    let mut passed = no_counts(alloc, program.seqs.as_slice().len())?;
    if !pass_all(program, found, &mut passed) {
        return Ok(false);
    }
    Ok(are_at_end(program, passed.as_slice()))
}
