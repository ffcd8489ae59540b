//! Owners of operations and delays: which sequence calls each, and which of them a driver has.
ghost use Rattle.std.specs.Prelude.{◌≡◌, ◌<◌, ◌%◌, ℕ, cond, length, map, slice_index_or, slice_set, IfOk, nat_eq};
ghost use Rattle.std.specs.List.{list_any};
ghost use Rattle.executive_program.specs.Places.{calls, caller_of};
ghost use Rattle.word_table.specs.Owners.{owners};

use executive_program::{Instr, Kind, Program, Vertex};
use std::alloc::Global;
use syn_base::{OutOfMemory, to_u32};

/// Puts a number in a place, where there is one.
fn put(list: &mut Vec<u32>, at: u32, number: u32)
    ensures { list.new.items ≡ slice_set list.old.items at number }
{
    let at = at as usize;
    if at < list.len() {
        list[at] = number;
    }
}

/// Puts the number of a sequence at each operation that its loop calls.
fn put_calls(turn: &[Instr], seq: u32, callers: &mut Vec<u32>)
    ensures long { length callers.new.items ≡ length callers.old.items }
    ensures each { (v : ℕ) → v < length callers.old.items →
        slice_index_or callers.new.items v 0 ≡
        cond (list_any (calls v) turn.now) seq (slice_index_or callers.old.items v 0) }
{
    for instr in turn {
        if let Instr::Call { vertex, .. } = instr {
            put(callers, *vertex, seq);
        }
    }
}

/// The sequence that calls each of this many operations: the first one whose loop has a call of it.
pub fn callers_of(
    alloc: Global,
    program: &Program,
    operations: usize,
) -> Result<Vec<u32>, OutOfMemory>
    ensures long { IfOk result (λ c. length c.items ≡ operations) }
    ensures each { IfOk result (λ c. (v : ℕ) → v < operations → slice_index_or c.items v 0 ≡ caller_of program.now v) }
{
    let seqs = program.seqs.as_slice();
    let count = to_u32(seqs.len())?;
    let mut callers = vec![in alloc; count; operations]?;
    for k in 0..count {
        let seq = count - 1 - k;
        put_calls(seqs[seq as usize].turn.as_slice(), seq, &mut callers);
    }
    Ok(callers)
}

/// Which operations are called by a sequence of a group.
pub fn called_in(
    alloc: Global,
    callers: &[u32],
    groups: u32,
    group: u32,
) -> Result<Vec<bool>, OutOfMemory>
    requires { 0 < groups }
    ensures { IfOk result (λ m. m.items ≡ map (λ s. nat_eq (s % groups) group) callers.now) }
{
    let called: Vec<bool> = callers.iter().map(|s| *s % groups == group).collect(alloc)?;
    Ok(called)
}

/// The sequence that calls each delay: delays are numbered by their get halves.
pub fn cell_owners(
    alloc: Global,
    vertices: &[Vertex],
    callers: &[u32],
) -> Result<Vec<u32>, OutOfMemory>
    requires { length callers.now ≡ length vertices.now }
    ensures { IfOk result (λ o. o.items ≡ owners callers.now vertices.now) }
{
    let mut cells = Vec::new(alloc);
    for (v, x) in vertices.iter().enumerate() {
        if let Kind::Get(_) = &x.kind {
            cells.push(callers[v])?;
        }
    }
    Ok(cells)
}
