//! Room for registers: how many the micro-steps of a sequence need, laid out for each sequence.
ghost use Rattle.std.specs.Prelude.{◌≡◌, ◌+◌, ◌<◌, max, sum, IfOk};
ghost use Rattle.operation_desks.specs.Rooms.{outputs_len, top_load, top_store, top, highest};
ghost use Rattle.operation_desks.specs.Rooms.{empty_registers, all_registers};

use crate::registers::Registers;
use executive_program::{Flat, MicroStep, OnLoad, OnStore, SeqSteps};
use std::alloc::Global;
use syn_base::OutOfMemory;

/// The sum of these lengths.
pub fn sum_of(lens: &[u32]) -> u128
    ensures { result ≡ sum lens.now }
{
    let mut total = 0;
    for len in lens {
        total += *len as u128;
    }
    total
}

/// How many elements the outputs of an operation have.
fn outputs_len(flat: &Flat, vertex: u32) -> u128
    ensures { result ≡ outputs_len flat.now vertex }
{
    let vertices = flat.vertices();
    if (vertex as usize) < vertices.len() {
        sum_of(vertices[vertex as usize].outs.as_slice())
    } else {
        0
    }
}

/// The highest number of a register that a load uses.
fn top_load(flat: &Flat, then: OnLoad) -> u128
    ensures { result ≡ top_load flat.now then }
{
    match then {
        OnLoad::Carry => 0,
        OnLoad::Gather(register) => register as u128,
        OnLoad::Compute {
            vertex,
            register,
            ..
        } => (register as u128).max(outputs_len(flat, vertex)),
    }
}

/// The highest number of a register that a store uses.
fn top_store(flat: &Flat, what: OnStore) -> u128
    ensures { result ≡ top_store flat.now what }
{
    match what {
        OnStore::Compute { vertex, .. } => outputs_len(flat, vertex),
        _ => 0,
    }
}

/// The highest number of a register that a micro-step uses.
fn top(flat: &Flat, step: MicroStep) -> u128
    ensures { result ≡ top flat.now step }
{
    match step {
        MicroStep::Load { then, .. } => top_load(flat, then),
        MicroStep::Store { what, .. } => top_store(flat, what),
        _ => 0,
    }
}

/// The highest number of a register that any of these micro-steps uses.
pub fn highest(flat: &Flat, list: &[MicroStep]) -> u128
    ensures { result ≡ highest flat.now list.now }
{
    let mut most = 0;
    for step in list {
        most = top(flat, *step).max(most);
    }
    most
}

/// A number as a length. One that no memory could hold is want of memory.
pub fn addressable(number: u128) -> Result<usize, OutOfMemory>
    ensures { IfOk result (λ n. n ≡ number) }
{
    if number <= usize::MAX as u128 {
        Ok(number as usize)
    } else {
        Err(OutOfMemory)
    }
}

/// Room for the registers of a sequence, of which none is in use.
fn empty_registers(alloc: Global, flat: &Flat, steps: &SeqSteps) -> Result<Registers, OutOfMemory>
    ensures { IfOk result (λ r. r ≡ empty_registers flat.now steps.now) }
{
    let prologue = highest(flat, steps.prologue.as_slice());
    let turn = highest(flat, steps.turn.as_slice());
    let most = addressable(prologue.max(turn))?;
    if most == usize::MAX {
        return Err(OutOfMemory);
    }
    Registers::new(alloc, most + 1)
}

/// Room for the registers of each sequence, of which none is in use.
pub fn all_registers(
    alloc: Global,
    flat: &Flat,
    steps: &[SeqSteps],
) -> Result<Vec<Registers>, OutOfMemory>
    ensures { IfOk result (λ s. s.items ≡ all_registers flat.now steps.now) }
{
    let mut all = Vec::new(alloc);
    for one in steps {
        all.push(empty_registers(alloc, flat, one)?)?;
    }
    Ok(all)
}
