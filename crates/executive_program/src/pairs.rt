//! How many places the buffer of each pair of semaphores has.
//!
//! Pairs are numbered by the list of each buffer with each sequence that reads it and does not write it. One
//! walk over each sequence marks these buffers, so that the table takes time in proportion to the program, and
//! to the sequences times the buffers.
ghost use Rattle.std.specs.Prelude.{◌≡◌, ℕ, ◌+◌, ◌<◌, ◌^◌, ◌++◌, cond, true, false, nat_eq, length, replicate, slice_index_or, slice_set, IfOk, OnOk};
ghost use Rattle.std.specs.List.{count_by, list_any};
ghost use Rattle.executive_program.specs.Instructions.{reads, writes, waits_for};
ghost use Rattle.executive_program.specs.Sizes.{pair_depths};

use crate::program::{Instr, Program, SeqCode};
use std::alloc::Global;
use syn_base::OutOfMemory;

/// Puts a mark, if its place is there.
fn put_mark(marks: &mut [bool], at: usize, mark: bool)
    ensures { marks.new ≡ slice_set marks.old at mark }
{
    if at < marks.len() {
        marks[at] = mark;
    }
}

/// Gives these buffers a mark.
fn mark_all(marks: &mut [bool], buffers: &[u32], mark: bool)
    ensures { (b : ℕ) → b < length marks.old →
        slice_index_or marks.new b false ≡
        cond (list_any (λ c. nat_eq c b) buffers.now) mark (slice_index_or marks.old b false) }
{
    for buffer in buffers {
        put_mark(marks, *buffer as usize, mark);
    }
}

/// Marks the buffers that an instruction reads.
fn mark_reads(marks: &mut [bool], instr: &Instr)
    ensures { (b : ℕ) → b < length marks.old →
        slice_index_or marks.new b false ≡
        cond (reads b instr.now) true (slice_index_or marks.old b false) }
{
    match instr {
        Instr::Call { ins, .. } => mark_all(marks, ins.as_slice(), true),
        Instr::Send { buffer, .. } => put_mark(marks, *buffer as usize, true),
        _ => {}
    }
}

/// Takes the marks off the buffers that an instruction writes.
fn unmark_writes(marks: &mut [bool], instr: &Instr)
    ensures { (b : ℕ) → b < length marks.old →
        slice_index_or marks.new b false ≡
        cond (writes b instr.now) false (slice_index_or marks.old b false) }
{
    match instr {
        Instr::Call { outs, .. } => mark_all(marks, outs.as_slice(), false),
        Instr::Recv { buffer, .. } => put_mark(marks, *buffer as usize, false),
        _ => {}
    }
}

/// Marks the buffers that some of these instructions read.
fn mark_all_reads(marks: &mut [bool], list: &[Instr])
    ensures { (b : ℕ) → b < length marks.old →
        slice_index_or marks.new b false ≡
        cond (list_any (reads b) list.now) true (slice_index_or marks.old b false) }
{
    for instr in list {
        mark_reads(marks, instr);
    }
}

/// Takes the marks off the buffers that some of these instructions write.
fn unmark_all_writes(marks: &mut [bool], list: &[Instr])
    ensures { (b : ℕ) → b < length marks.old →
        slice_index_or marks.new b false ≡
        cond (list_any (writes b) list.now) false (slice_index_or marks.old b false) }
{
    for instr in list {
        unmark_writes(marks, instr);
    }
}

/// Of each buffer, whether a sequence reads it and does not write it.
fn mark_waiting(alloc: Global, code: &SeqCode, buffers: usize) -> Result<Vec<bool>, OutOfMemory>
    ensures many { IfOk result (λ marks. length marks.items ≡ buffers) }
    ensures each { IfOk result (λ marks. (b : ℕ) → b < buffers →
        slice_index_or marks.items b false ≡ waits_for b code.now) }
{
    let mut marks = vec![in alloc; false; buffers]?;
    mark_all_reads(&mut marks, code.turn.as_slice());
    unmark_all_writes(&mut marks, code.turn.as_slice());
    Ok(marks)
}

/// One more where there is a mark.
fn count_mark(count: u64, mark: bool) -> u64
    requires { count + 1 < 2 ^ 64 }
    ensures { result ≡ count + cond mark 1 0 }
{
    if mark { count + 1 } else { count }
}

/// Counts the marks of one more sequence.
fn add_marks(counts: &mut [u64], marks: &[bool])
    requires many { length marks.now ≡ length counts.old }
    requires few { (b : ℕ) → slice_index_or counts.old b 0 + 1 < 2 ^ 64 }
    ensures { (b : ℕ) → b < length counts.old →
        slice_index_or counts.new b 0 ≡ slice_index_or counts.old b 0 +
        cond (slice_index_or marks.now b false) 1 0 }
{
    for b in 0..counts.len() {
        counts[b] = count_mark(counts[b], marks[b]);
    }
}

/// How many sequences read each buffer and do not write it.
fn reader_counts(alloc: Global, program: &Program) -> Result<Vec<u64>, OutOfMemory>
    ensures many { IfOk result (λ counts. length counts.items ≡ length program.now.buffers) }
    ensures each { IfOk result (λ counts. (b : ℕ) → b < length program.now.buffers →
        slice_index_or counts.items b 0 ≡ count_by (waits_for b) program.now.seqs) }
{
    let buffers = program.buffers.as_slice().len();
    let mut counts = vec![in alloc; 0; buffers]?;
    for code in program.seqs.as_slice() {
        let marks = mark_waiting(alloc, code, buffers)?;
        add_marks(&mut counts, marks.as_slice());
    }
    Ok(counts)
}

/// Adds a number this many times.
fn push_times(out: &mut Vec<u32>, number: u32, times: u64) -> Result<(), OutOfMemory>
    ensures { OnOk result (out.new.items ≡ out.old.items ++ replicate times number) }
{
    for _ in 0..times {
        out.push(number)?;
    }
    Ok(())
}

/// How many places the buffer of each pair has, by the pair's number. A pair beyond this list counts as
/// one whose buffer has one place.
pub fn pair_depths(alloc: Global, program: &Program) -> Result<Vec<u32>, OutOfMemory>
    ensures { IfOk result (λ depths. depths.items ≡ pair_depths program.now) }
{
    let counts = reader_counts(alloc, program)?;
    let buffers = program.buffers.as_slice();
    let mut depths = Vec::new(alloc);
    for b in 0..buffers.len() {
        push_times(&mut depths, buffers[b].depth, counts[b])?;
    }
    Ok(depths)
}
