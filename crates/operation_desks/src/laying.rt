//! Desks as `semaphore_core` lays them out when it opens a state: one for each operation that is to be computed.
ghost use Rattle.std.specs.Prelude.{◌≡◌, ◌+◌, ◌^◌, ◌<◌, ◌++◌, ◌≤◌, cond, false, true, map, length, replicate, slice_get, slice_index_or, Some, IfOk, OnOk, IsTrue, option_map};
ghost use Rattle.executive_program.specs.Meaning.{delay_number};
ghost use Rattle.executive_program.specs.FlatValid.{is_flat};
ghost use Rattle.operation_desks.specs.Operation.{delay_by, delay_of};
ghost use Rattle.operation_desks.specs.Desk.{AreDelayNumbers, is_get_at, HasDesk, IsDesk, lens_of_desk, AreDesks};

use crate::desk::Desk;
use crate::opening::{is_mine, push_lens};
use executive_program::{Flat, Kind, Vertex};
use std::alloc::Global;
use syn_base::{OutOfMemory, to_u32};

/// Whether operation `k` is the get half of a delay.
fn is_get_at(vertices: &[Vertex], k: u32) -> bool
    ensures { result ≡ is_get_at vertices.now k }
{
    match vertices.get(k as usize) {
        Some(x) => matches!(&x.kind, Kind::Get(_)),
        None => false,
    }
}

/// One more, where there is one.
fn count_if(number: u32, more: bool) -> u32
    requires { number + 1 < 2 ^ 32 }
    ensures value { result ≡ cond more (number + 1) number }
    ensures few { result ≤ number + 1 }
{
    if more { number + 1 } else { number }
}

/// For each operation, and past the last one: how many get halves stand before it. They are counted in one pass.
fn delay_numbers(alloc: Global, vertices: &[Vertex]) -> Result<Vec<u32>, OutOfMemory>
    ensures { IfOk result (λ n. AreDelayNumbers vertices.now n.items) }
{
    let count = to_u32(vertices.len())?;
    let mut number = 0;
    let mut numbers = Vec::new(alloc);
    numbers.push(number)?;
    for v in 0..count {
        number = count_if(number, is_get_at(vertices, v));
        numbers.push(number)?;
    }
    Ok(numbers)
}

/// How many get halves stand before operation `v`.
fn delay_number(vertices: &[Vertex], numbers: &[u32], v: u32) -> u32
    requires { AreDelayNumbers vertices.now numbers.now }
    ensures { result ≡ delay_number vertices.now v }
{
    numbers[(v as usize).min(vertices.len())]
}

/// The number of the delay of which operation `v` is a half.
fn delay_of(vertices: &[Vertex], numbers: &[u32], v: u32, x: &Vertex) -> Option<u32>
    requires { AreDelayNumbers vertices.now numbers.now }
    ensures { result ≡ delay_by vertices.now v x.now.kind x.now.twin }
{
    match &x.kind {
        Kind::Get(_) => Some(delay_number(vertices, numbers, v)),
        Kind::Set => match x.twin {
            Some(twin) => Some(delay_number(vertices, numbers, twin)),
            None => None,
        },
        _ => None,
    }
}

/// Appends these lengths.
fn push_all(list: &[u32], lens: &mut Vec<u32>) -> Result<(), OutOfMemory>
    ensures { OnOk result (lens.new.items ≡ lens.old.items ++ list.now) }
{
    for len in list {
        lens.push(*len)?;
    }
    Ok(())
}

/// The desk of operation `v`, which is a half of this delay if it is one.
fn desk_of(
    alloc: Global,
    flat: &Flat,
    v: u32,
    x: &Vertex,
    delay: Option<u32>,
) -> Result<Desk, OutOfMemory>
    requires there { slice_get flat.now.vertices v ≡ Some x.now }
    requires delay { delay ≡ delay_of flat.now v x.now }
    ensures { IfOk result (λ d. IsDesk flat.now v x.now (lens_of_desk d)) }
{
    let guards = to_u32(x.guards.as_slice().len())?;
    let inputs = to_u32(x.ins.as_slice().len())?;
    let mut lens = Vec::new(alloc);
    push_lens(flat, x.ins.as_slice(), &mut lens)?;
    let ones = vec![in alloc; 1; x.guards.as_slice().len()]?;
    push_all(ones.as_slice(), &mut lens)?;
    Desk::new(
        alloc,
        lens.as_slice(),
        x.outs.as_slice(),
        guards,
        inputs,
        delay,
    )
}

/// What stands in the place of operation `v`: its desk, where it is to be computed.
fn desk_if(
    alloc: Global,
    flat: &Flat,
    numbers: &[u32],
    v: u32,
    x: &Vertex,
    mine: bool,
) -> Result<Option<Desk>, OutOfMemory>
    requires numbers { AreDelayNumbers flat.now.vertices numbers.now }
    requires there { slice_get flat.now.vertices v ≡ Some x.now }
    ensures { IfOk result (λ o. mine ≡ true → HasDesk flat.now v x.now (option_map lens_of_desk o)) }
{
    if mine {
        let delay = delay_of(flat.vertices(), numbers, v, x);
        Ok(Some(desk_of(alloc, flat, v, x, delay)?))
    } else {
        Ok(None)
    }
}

/// A place for the desk of each operation, and in it the desk of each that is to be computed: `mine` says which, by
/// their number. So where few operations are to be computed, little is laid out.
pub fn desks_for(
    alloc: Global,
    flat: &Flat,
    mine: &[bool],
) -> Result<Vec<Option<Desk>>, OutOfMemory>
    ensures desks { IfOk result (λ s. AreDesks flat.now (λ v. slice_index_or mine.now v false)
        (length flat.now.vertices) (map (option_map lens_of_desk) s.items)) }
    ensures valid { IsTrue (is_flat flat.now) }
{
    let vertices = flat.vertices();
    let count = to_u32(vertices.len())?;
    let numbers = delay_numbers(alloc, vertices)?;
    let mut desks = Vec::new(alloc);
    for v in 0..count {
        let x = &vertices[v as usize];
        let is_mine = is_mine(mine, v as usize);
        desks.push(desk_if(alloc, flat, numbers.as_slice(), v, x, is_mine)?)?;
    }
    Ok(desks)
}

/// This many operations, each of which is to be computed.
fn each_mine(alloc: Global, count: usize) -> Result<Vec<bool>, OutOfMemory>
    ensures { IfOk result (λ mine. mine.items ≡ replicate count true) }
{
    Ok(vec![in alloc; true; count]?)
}

/// The desks of all operations.
pub fn desks_of(alloc: Global, flat: &Flat) -> Result<Vec<Option<Desk>>, OutOfMemory>
    ensures desks { IfOk result (λ s. AreDesks flat.now (λ v. true) (length flat.now.vertices)
        (map (option_map lens_of_desk) s.items)) }
    ensures valid { IsTrue (is_flat flat.now) }
{
    let mine = each_mine(alloc, flat.vertices().len())?;
    desks_for(alloc, flat, mine.as_slice())
}
