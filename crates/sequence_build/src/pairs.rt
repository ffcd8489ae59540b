//! The pairs of semaphores: each buffer with each sequence that reads it and does not write it.
ghost use Rattle.std.specs.Prelude.{◌≡◌, ◌++◌, map, length, OnOk, IfOk, slice_get, vec_len};
ghost use Rattle.sequence_build_laws.specs.Guarded.{operator_in};
ghost use Rattle.sequence_build.specs.Pairs.{deep_buffer, deepened, is_in, pairs_below, pairs_with};

use crate::uses::{Place, Use};
use sequence_build_laws::Buffer;
use std::alloc::Global;
use syn_base::{OutOfMemory, to_u32};

/// A pair of semaphores: its buffer, the sequence that reads it, with the places in that sequence's
/// loop of the first and the last read, and the place of the write.
#[derive(Clone, Copy, Drop)]
pub struct Pair {
    pub buffer: u32,
    pub reader: u32,
    pub first: usize,
    pub last: usize,
    pub write: Option<Place>,
}

/// Whether a place is in this sequence.
fn is_in(place: Option<Place>, sequence: u32) -> bool
    ensures { result ≡ is_in place sequence }
{
    match place {
        Some(place) => place.sequence == sequence,
        None => false,
    }
}

/// Adds the pairs of a buffer.
fn push_pairs(
    pairs: &mut Vec<Pair>,
    buffer: u32,
    write: Option<Place>,
    uses: &[Use],
) -> Result<(), OutOfMemory>
    ensures { OnOk result (pairs.new.items ≡ pairs.old.items ++ pairs_with buffer write uses.now) }
{
    for found in uses {
        if !is_in(write, found.sequence) {
            pairs.push(Pair {
                buffer,
                reader: found.sequence,
                first: found.first,
                last: found.last,
                write,
            })?;
        }
    }
    Ok(())
}

/// The pairs by buffer, and then by sequence.
pub fn pairs_of(
    alloc: Global,
    uses: &Vec<Vec<Use>>,
    writes: &[Option<Place>],
) -> Result<Vec<Pair>, OutOfMemory>
    requires { length writes.now ≡ vec_len uses.now }
    ensures { IfOk result (λ pairs. pairs.items ≡ pairs_below uses.now.items writes.now (vec_len uses.now)) }
{
    let mut pairs = Vec::new(alloc);
    for buffer in 0..uses.len() {
        push_pairs(
            &mut pairs,
            to_u32(buffer)?,
            writes[buffer],
            uses[buffer].as_slice(),
        )?;
    }
    Ok(pairs)
}

/// The operator of a buffer, 0 for one that is not there.
fn operator_of(buffers: &[Buffer], buffer: u32) -> u32
    ensures { result ≡ operator_in (slice_get buffers.now buffer) }
{
    match buffers.get(buffer as usize) {
        Some(found) => found.operator,
        None => 0,
    }
}

/// The operators of the pairs' buffers.
pub fn operators_of(
    alloc: Global,
    buffers: &[Buffer],
    pairs: &[Pair],
) -> Result<Vec<u32>, OutOfMemory>
    ensures { IfOk result (λ operators. operators.items ≡
        map (λ p. operator_in (slice_get buffers.now p.buffer)) pairs.now) }
{
    let mut operators = Vec::new(alloc);
    for pair in pairs {
        operators.push(operator_of(buffers, pair.buffer))?;
    }
    Ok(operators)
}

/// Gives a buffer this many places.
fn deepen(buffers: &mut [Buffer], buffer: u32, depth: u32)
    ensures { buffers.new ≡ deep_buffer depth (slice_get buffers.old buffer) buffers.old buffer }
{
    let buffer = buffer as usize;
    if buffer < buffers.len() {
        buffers[buffer].depth = depth;
    }
}

/// Gives the buffers of these pairs this many places.
pub fn deepen_all(buffers: &mut [Buffer], pairs: &[Pair], depth: u32)
    ensures { buffers.new ≡ deepened depth pairs.now buffers.old }
{
    for pair in pairs {
        deepen(buffers, pair.buffer, depth);
    }
}
