//! Where prologues are wrong.
ghost use Rattle.std.specs.Prelude.{◌≡◌, ℕ, ◌++◌, IfOk, OnOk};
ghost use Rattle.sequence_build_laws.specs.Blocks.{repeated};
ghost use Rattle.program_tables.specs.Readings.{readings};
ghost use Rattle.check_places.specs.First.{broken, spot_at};
ghost use Rattle.check_places.specs.Pairs.{pairs_signalled, prologue_place, signal_place};

use crate::first::{broken, spot_at};
use crate::place::{Part, Place, Rule, Subject};
use program_tables::Reading;
use program_walks::{depth_of, signals_empty};
use sequence_build_laws::{Instr, Program, SeqCode};
use std::alloc::Global;
use syn_base::OutOfMemory;

/// Adds a pair so many times.
fn push_repeated(pairs: &mut Vec<usize>, pair: usize, count: u32) -> Result<(), OutOfMemory>
    ensures { OnOk result (pairs.new.items ≡ pairs.old.items ++ repeated pair count) }
{
    for _ in 0..count {
        pairs.push(pair)?;
    }
    Ok(())
}

/// The pairs that the prologue of a sequence signals, in order: each once for each place of its buffer.
fn pairs_signalled(
    alloc: Global,
    program: &Program,
    found: &[Reading],
    sequence: usize,
) -> Result<Vec<usize>, OutOfMemory>
    requires { found.now ≡ readings program.now }
    ensures { IfOk result (λ pairs. pairs.items ≡ pairs_signalled program.now sequence) }
{
    let mut pairs = Vec::new(alloc);
    for (pair, reading) in found.iter().enumerate() {
        if reading.sequence == sequence {
            push_repeated(&mut pairs, pair, depth_of(program, reading.buffer))?;
        }
    }
    Ok(pairs)
}

/// A place before the loop of a sequence at which the signal of a pair is missing.
fn missing(sequence: usize, at: usize, pair: usize) -> Option<Place>
    ensures { result ≡ broken Rule.MissingSignal (Subject.Pair pair) (spot_at Part.Prologue sequence at) }
{
    broken(
        Rule::MissingSignal,
        Subject::Pair(pair),
        spot_at(Part::Prologue, sequence, at),
    )
}

/// A place before the loop of a sequence at which a line is too many.
fn further(sequence: usize, at: usize) -> Option<Place>
    ensures { result ≡ broken Rule.FurtherLine (Subject.Sequence sequence) (spot_at Part.Prologue sequence at) }
{
    broken(
        Rule::FurtherLine,
        Subject::Sequence(sequence),
        spot_at(Part::Prologue, sequence, at),
    )
}

/// The first of these instructions of a prologue that does not signal the empty semaphore of its pair among these.
fn signal_place(sequence: usize, list: &[Instr], pairs: &[usize]) -> Option<Place>
    ensures { result ≡ signal_place sequence 0 list.now pairs.now }
{
    for (at, instr) in list.iter().enumerate() {
        if at >= pairs.len() {
            return further(sequence, at);
        }
        if !signals_empty(instr, pairs[at]) {
            return missing(sequence, at, pairs[at]);
        }
    }
    if list.len() < pairs.len() {
        return missing(sequence, list.len(), pairs[list.len()]);
    }
    None
}

/// The first instruction of the prologue of a sequence that is not the one that it has there.
fn place_in(
    alloc: Global,
    program: &Program,
    found: &[Reading],
    sequence: usize,
    code: &SeqCode,
) -> Result<Option<Place>, OutOfMemory>
    requires { found.now ≡ readings program.now }
    ensures { IfOk result (λ place. place ≡
        signal_place sequence 0 code.now.prologue (pairs_signalled program.now sequence)) }
{
    let pairs = pairs_signalled(alloc, program, found, sequence)?;
    Ok(signal_place(sequence, code.prologue.as_slice(), pairs.as_slice()))
}

/// The first instruction before a loop that is not the one that its sequence has there. `found` has the buffers with
/// the sequences that read and do not write them.
pub fn prologue_place(
    alloc: Global,
    program: &Program,
    found: &[Reading],
) -> Result<Option<Place>, OutOfMemory>
    requires { found.now ≡ readings program.now }
    ensures { IfOk result (λ place. place ≡ prologue_place program.now) }
{
    for (sequence, code) in program.seqs.as_slice().iter().enumerate() {
        if let Some(place) = place_in(alloc, program, found, sequence, code)? {
            return Ok(Some(place));
        }
    }
    Ok(None)
}
