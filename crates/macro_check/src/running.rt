//! The run that takes any sequence whose next instruction awaits nothing more, from a list of the sequences that may
//! have become ready.
ghost use Rattle.std.specs.Prelude.{◌≡◌, ℕ, ◌<◌, ◌≤◌, ◌^◌, ◌++◌, [], ◌∷◌, zero, length, map, replicate, slice_index, IfOk, OnOk};
ghost use Rattle.std.specs.List.{range_with_len};
ghost use Rattle.sequence_build_laws.specs.Instructions.{turn};
ghost use Rattle.macro_check.specs.Tabled.{AreTables};
ghost use Rattle.macro_check.specs.Awaiting.{IsEnded, IsGoing, IsStep, MayRun, is_ready_in, left_in, place_of, stop_at, to_do};

use crate::awaiting::{awaited, count_at, is_past, push_woken};
use crate::tables::Tables;
use check_cause::Stop;
use program_walks::turn_of;
use sequence_build_laws::Program;
use std::alloc::Global;
use syn_base::OutOfMemory;

/// A run that has come to its end: the sequences in the order in which it took them, and how many instructions
/// of each it made.
#[derive(Drop)]
pub struct Run {
    pub order: Vec<u32>,
    pub done: Vec<usize>,
}

/// Whether a sequence has a next instruction, and what it awaits was made.
fn is_ready(program: &Program, tables: &Tables, done: &[usize], sequence: usize) -> bool
    requires tables { AreTables program.now tables.now }
    requires run { MayRun program.now tables.now.media }
    ensures { result ≡ is_ready_in program.now done.now sequence }
{
    let at = count_at(done, sequence);
    match turn_of(program, sequence).get(at) {
        Some(instr) => is_past(done, awaited(program, tables, sequence, at, instr)),
        None => false,
    }
}

/// The counts before anything was made: as many zeros.
fn no_counts(alloc: Global, count: usize) -> Result<Vec<usize>, OutOfMemory>
    ensures { IfOk result (λ done. done.items ≡ replicate count 0) }
{
    let mut done = Vec::new(alloc);
    for _count in 0..count {
        done.push(0)?;
    }
    Ok(done)
}

/// The sequences from 0 on, as many as are asked for.
fn all_sequences(alloc: Global, count: usize) -> Result<Vec<usize>, OutOfMemory>
    ensures { IfOk result (λ looks. looks.items ≡ range_with_len 0 count) }
{
    let mut looks = Vec::new(alloc);
    for sequence in 0..count {
        looks.push(sequence)?;
    }
    Ok(looks)
}

/// Makes the next instruction of a sequence, and adds the sequences that it may have made ready.
fn step(
    program: &Program,
    tables: &Tables,
    order: &mut Vec<u32>,
    done: &mut [usize],
    looks: &mut Vec<usize>,
    sequence: usize,
) -> Result<(), OutOfMemory>
    requires tables { AreTables program.now tables.now }
    requires run { MayRun program.now tables.now.media }
    requires few { sequence < 2 ^ 32 }
    requires within { sequence < length done.old }
    requires there { slice_index done.old sequence < length (turn program.now sequence) }
    ensures { OnOk result (IsStep program.now sequence order.old.items done.old looks.old.items
        order.new.items done.new looks.new.items) }
{
    let at = done[sequence];
    let instr = &turn_of(program, sequence)[at];
    order.push(sequence as u32)?;
    done[sequence] = at + 1;
    looks.push(sequence)?;
    push_woken(looks, program, tables, sequence, instr)
}

/// Looks at a sequence: makes its next instruction if it may go on.
fn look(
    program: &Program,
    tables: &Tables,
    order: &mut Vec<u32>,
    done: &mut [usize],
    looks: &mut Vec<usize>,
    sequence: usize,
) -> Result<(), OutOfMemory>
    requires tables { AreTables program.now tables.now }
    requires run { MayRun program.now tables.now.media }
    requires few { length program.now.seqs ≤ 2 ^ 32 }
    requires going { IsGoing program.now order.old.items done.old (looks.old.items ++ sequence ∷ []) }
    ensures going { OnOk result (IsGoing program.now order.new.items done.new looks.new.items) }
    ensures less { OnOk result (to_do program.now order.new.items looks.new.items <
        to_do program.now order.old.items (looks.old.items ++ sequence ∷ [])) }
{
    if !is_ready(program, tables, done, sequence) {
        return Ok(());
    }
    step(program, tables, order, done, looks, sequence)?;
    Ok(())
}

/// A run of one reaction that ends where no sequence may go on.
pub fn run_through(alloc: Global, program: &Program, tables: &Tables) -> Result<Run, OutOfMemory>
    requires tables { AreTables program.now tables.now }
    requires run { MayRun program.now tables.now.media }
    requires few { length program.now.seqs ≤ 2 ^ 32 }
    ensures { IfOk result (λ r. IsEnded program.now r.order.items r.done.items) }
{
    let count = program.seqs.as_slice().len();
    let mut order = Vec::new(alloc);
    let mut done = no_counts(alloc, count)?;
    let mut looks = all_sequences(alloc, count)?;
    while let Some(sequence) = looks.pop() {
        look(program, tables, &mut order, &mut done, &mut looks, sequence)?;
    }
    Ok(Run { order, done })
}

/// Adds the place of the next instruction of a sequence that is not at its end.
fn push_stop(
    left: &mut Vec<Stop>,
    program: &Program,
    done: &[usize],
    sequence: usize,
) -> Result<(), OutOfMemory>
    requires few { sequence < 2 ^ 32 }
    requires loops { length (turn program.now sequence) < 2 ^ 32 }
    ensures { OnOk result (map place_of left.new.items ≡ map place_of left.old.items ++
        stop_at program.now done.now sequence) }
{
    let at = count_at(done, sequence);
    if at < turn_of(program, sequence).len() {
        left.push(Stop {
            sequence: sequence as u32,
            at: at as u32,
        })?;
    }
    Ok(())
}

/// The sequences that are not at their end, each with the place of its next instruction.
pub fn stops(alloc: Global, program: &Program, done: &[usize]) -> Result<Vec<Stop>, OutOfMemory>
    requires few { length program.now.seqs ≤ 2 ^ 32 }
    requires loops { (s : ℕ) → length (turn program.now s) < 2 ^ 32 }
    ensures { IfOk result (λ left. map place_of left.items ≡
        left_in program.now done.now zero (length program.now.seqs)) }
{
    let mut left = Vec::new(alloc);
    for sequence in 0..program.seqs.as_slice().len() {
        push_stop(&mut left, program, done, sequence)?;
    }
    Ok(left)
}
