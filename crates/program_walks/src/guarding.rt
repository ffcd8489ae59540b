//! The check of pairs of semaphores: each guards its buffer for its reader.
ghost use Rattle.std.specs.Prelude.{◌≡◌, ◌&&◌, ◌≤◌, nat_lt, length, slice_get};
ghost use Rattle.executive_program.specs.Instructions.{reads, readers_from};
ghost use Rattle.executive_program.specs.WellFormed.{operator_of};
ghost use Rattle.program_walks.specs.Walks.{all_at, implies};
ghost use Rattle.program_walks.specs.Pairs.{are_pairs, first_place, guards, guards_from, has_operator, is_full_first, is_read_between, is_read_within, is_written_between, is_written_within, reads_between};
ghost use Rattle.program_walks.specs.Acts.{is_act};

use crate::acts::{Act, Stand, first_act, is_only};
use crate::instructions::reads;
use crate::parts::turn_of;
use crate::placing::place_in;
use crate::searches::{waits_for, writer_of, written_at};
use executive_program::{Instr, Program};

/// A buffer with a sequence that reads it and does not write it.
#[derive(Clone, Copy, Drop)]
pub struct Reading {
    pub buffer: usize,
    pub sequence: usize,
}

/// The places of the two instructions of a pair in a sequence.
#[derive(Clone, Copy, Drop)]
struct Span {
    take: usize,
    signal: usize,
}

/// Whether a sequence takes the empty semaphore of a pair and signals its full one at these places alone, and writes
/// between them.
fn is_written_within(program: &Program, pair: usize, writing: Stand, span: Span) -> bool
    ensures { result ≡ is_written_within program.now pair writing.sequence writing.at span.take span.signal }
{
    let sequence = writing.sequence;
    is_only(
        program,
        Act::TakeEmpty,
        pair,
        Stand {
            sequence,
            at: span.take,
        },
    ) && is_only(
        program,
        Act::SignalFull,
        pair,
        Stand {
            sequence,
            at: span.signal,
        },
    ) && span.take < writing.at
        && writing.at < span.signal
}

/// The first place at which a sequence does this on a pair, or the length of its loop.
fn first_place(program: &Program, sequence: usize, act: Act, pair: usize) -> usize
    ensures { result ≡ first_place program.now (is_act act pair) sequence }
{
    first_act(turn_of(program, sequence), act, pair)
}

/// Whether a sequence writes between the two instructions that it has on a pair, each of which stands once.
fn is_written_between(program: &Program, pair: usize, writing: Stand) -> bool
    ensures { result ≡ is_written_between program.now pair writing.sequence writing.at }
{
    let take = first_place(program, writing.sequence, Act::TakeEmpty, pair);
    let signal = first_place(program, writing.sequence, Act::SignalFull, pair);
    is_written_within(program, pair, writing, Span { take, signal })
}

/// Whether these instructions read a buffer only between two places.
fn all_between(list: &[Instr], buffer: usize, after: usize, before: usize) -> bool
    ensures { result ≡ all_at (λ a x. implies (reads buffer x) (nat_lt after a && nat_lt a before)) 0 list.now }
{
    for (at, instr) in list.iter().enumerate() {
        if reads(instr, buffer) && !(after < at && at < before) {
            return false;
        }
    }
    true
}

/// Whether a sequence reads a buffer only between two places.
fn reads_between(program: &Program, reading: Reading, span: Span) -> bool
    ensures { result ≡ reads_between program.now reading.buffer reading.sequence span.take span.signal }
{
    all_between(
        turn_of(program, reading.sequence),
        reading.buffer,
        span.take,
        span.signal,
    )
}

/// Whether a sequence takes the full semaphore of a pair and signals its empty one at these places alone, and reads
/// the buffer only between them.
fn is_read_within(program: &Program, pair: usize, reading: Reading, span: Span) -> bool
    ensures { result ≡ is_read_within program.now pair reading.buffer reading.sequence span.take span.signal }
{
    let sequence = reading.sequence;
    is_only(
        program,
        Act::TakeFull,
        pair,
        Stand {
            sequence,
            at: span.take,
        },
    ) && is_only(
        program,
        Act::SignalEmpty,
        pair,
        Stand {
            sequence,
            at: span.signal,
        },
    ) && reads_between(program, reading, span)
}

/// Whether a sequence reads its buffer only between the two instructions that it has on a pair, each of which stands
/// once.
fn is_read_between(program: &Program, pair: usize, reading: Reading) -> bool
    ensures { result ≡ is_read_between program.now pair reading.buffer reading.sequence }
{
    let take = first_place(program, reading.sequence, Act::TakeFull, pair);
    let signal = first_place(program, reading.sequence, Act::SignalEmpty, pair);
    is_read_within(program, pair, reading, Span { take, signal })
}

/// Whether the full semaphore of a pair is signalled before it is taken, in a serial order.
fn is_full_first(
    program: &Program,
    order: &[u32],
    pair: usize,
    writer: usize,
    reader: usize,
) -> bool
    ensures { result ≡ is_full_first program.now order.now pair writer reader }
{
    let signal = first_place(program, writer, Act::SignalFull, pair);
    let take = first_place(program, reader, Act::TakeFull, pair);
    place_in(order, writer, signal) < place_in(order, reader, take)
}

/// Whether a pair and a buffer are there and belong to the same operator.
fn has_operator(program: &Program, pair: usize, buffer: usize) -> bool
    ensures { result ≡ has_operator (slice_get program.now.pairs pair) (operator_of program.now buffer) }
{
    match (
        program.pairs.as_slice().get(pair),
        program.buffers.as_slice().get(buffer),
    ) {
        (Some(operator), Some(found)) => *operator == found.operator,
        _ => false,
    }
}

/// Whether a pair guards the buffer of a reader, which is written there.
fn guards_from(
    program: &Program,
    order: &[u32],
    pair: usize,
    reading: Reading,
    writing: Stand,
) -> bool
    ensures { result ≡ guards_from program.now order.now pair
        (record { buffer = reading.buffer; sequence = reading.sequence }) writing.sequence
        writing.at }
{
    pair < program.pairs.as_slice().len()
        && has_operator(program, pair, reading.buffer)
        && is_written_between(program, pair, writing)
        && is_read_between(program, pair, reading)
        && is_full_first(program, order, pair, writing.sequence, reading.sequence)
}

/// Whether a pair guards the buffer of a reader.
fn guards(program: &Program, order: &[u32], pair: usize, reading: Reading) -> bool
    ensures { result ≡ guards program.now order.now pair
        (record { buffer = reading.buffer; sequence = reading.sequence }) }
{
    let sequence = writer_of(program, reading.buffer);
    let at = written_at(program, reading.buffer);
    guards_from(program, order, pair, reading, Stand { sequence, at })
}

/// Whether the pairs from `first` on guard a buffer, one for each of its readers in order.
fn guards_buffer(program: &Program, order: &[u32], buffer: usize, first: usize) -> bool
    requires { first ≤ length program.now.pairs }
    ensures { result ≡ all_at (guards program.now order.now) first (readers_from 0 program.now.seqs buffer) }
{
    let mut pair = first;
    for (sequence, code) in program.seqs.as_slice().iter().enumerate() {
        if waits_for(code, buffer) {
            let right = pair < program.pairs.as_slice().len()
                && guards(program, order, pair, Reading { buffer, sequence });
            if !right {
                return false;
            }
            pair += 1;
        }
    }
    true
}

/// How many sequences read a buffer that another one writes.
fn count_readers(program: &Program, buffer: usize) -> usize
    ensures { result ≡ length (readers_from 0 program.now.seqs buffer) }
{
    let mut count = 0;
    for code in program.seqs.as_slice() {
        if waits_for(code, buffer) {
            count += 1;
        }
    }
    count
}

/// Whether there is one pair for each buffer and each sequence that reads it and does not write it, by
/// buffer and then by sequence, on the buffer's operator, and each guards its buffer.
pub fn are_guarded(program: &Program, order: &[u32]) -> bool
    ensures { result ≡ are_pairs program.now order.now }
{
    let pairs = program.pairs.as_slice().len();
    let mut pair = 0;
    for buffer in 0..program.buffers.as_slice().len() {
        if !guards_buffer(program, order, buffer, pair) {
            return false;
        }
        pair += count_readers(program, buffer);
    }
    pairs == pair
}
