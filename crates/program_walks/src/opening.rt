//! The check of prologues: each signals so that the writers of its buffers begin.
ghost use Rattle.std.specs.Prelude.{◌≡◌};
ghost use Rattle.std.specs.List.{count_by, list_all};
ghost use Rattle.executive_program.specs.Instructions.{readers, readers_from};
ghost use Rattle.executive_program.specs.Places.{signals_empty};
ghost use Rattle.program_walks.specs.Walks.{all_at, passed};
ghost use Rattle.program_walks.specs.Opened.{are_opened, opens, rises, signals_for, signals_right};

use crate::guarding::Reading;
use crate::instructions::signals_empty;
use crate::parts::depth_of;
use crate::searches::waits_for;
use executive_program::{Instr, Program};

/// Whether these instructions signal empty semaphores alone, of pairs below `bound` in ascending order.
fn rises(list: &[Instr], bound: usize) -> bool
    ensures { result ≡ rises bound 0 list.now }
{
    let mut least = 0;
    for instr in list {
        match instr {
            Instr::Pre0(pair) if least <= *pair as usize && (*pair as usize) < bound => {
                least = *pair as usize;
            }
            _ => return false,
        }
    }
    true
}

/// How many of these instructions signal the empty semaphore of a pair.
fn count_signals(list: &[Instr], pair: usize) -> usize
    ensures { result ≡ count_by (signals_empty pair) list.now }
{
    list.iter()
        .filter(|instr| signals_empty(instr, pair))
        .count()
}

/// How often a sequence signals the empty semaphore of the pair of a reader before its loop.
fn signals_for(program: &Program, reading: Reading, sequence: usize) -> usize
    ensures { result ≡ signals_for program.now
        (record { buffer = reading.buffer; sequence = reading.sequence }) sequence }
{
    if reading.sequence == sequence {
        depth_of(program, reading.buffer) as usize
    } else {
        0
    }
}

/// Whether each sequence signals the empty semaphore of a pair before its loop as often as it is to: the
/// reader once for each place of the buffer, and no other.
fn all_signal(program: &Program, pair: usize, reading: Reading) -> bool
    ensures { result ≡ all_at (signals_right program.now pair
        (record { buffer = reading.buffer; sequence = reading.sequence })) 0 program.now.seqs }
{
    for (sequence, code) in program.seqs.as_slice().iter().enumerate() {
        if count_signals(code.prologue.as_slice(), pair)
            != signals_for(program, reading, sequence)
        {
            return false;
        }
    }
    true
}

/// The number after the pairs of a buffer, of which the first is `first`, if each is there and opened.
fn after_readers(program: &Program, first: usize, buffer: usize) -> Option<usize>
    ensures { result ≡ passed (opens program.now) first (readers_from 0 program.now.seqs buffer) }
{
    let mut pair = first;
    for (sequence, code) in program.seqs.as_slice().iter().enumerate() {
        if waits_for(code, buffer) {
            let opened = pair < program.pairs.as_slice().len()
                && all_signal(program, pair, Reading { buffer, sequence });
            if !opened {
                return None;
            }
            pair += 1;
        }
    }
    Some(pair)
}

/// The number of pairs that the program is to have, if each is opened.
fn count_opened(program: &Program) -> Option<usize>
    ensures { result ≡ passed (opens program.now) 0 (readers program.now) }
{
    let mut pair = 0;
    for buffer in 0..program.buffers.as_slice().len() {
        pair = after_readers(program, pair, buffer)?;
    }
    Some(pair)
}

/// Whether each prologue signals empty semaphores alone, of this many pairs in ascending order.
fn are_rising(program: &Program, pairs: usize) -> bool
    ensures { result ≡ list_all (λ q. rises pairs 0 q.prologue) program.now.seqs }
{
    program
        .seqs
        .as_slice()
        .iter()
        .all(|code| rises(code.prologue.as_slice(), pairs))
}

/// Whether each prologue has, for each pair of which its sequence is the reader, by number, a signal of the
/// empty semaphore for each place of the buffer, and nothing else.
pub fn are_opened(program: &Program) -> bool
    ensures { result ≡ are_opened program.now }
{
    match count_opened(program) {
        Some(pairs) => are_rising(program, pairs),
        None => false,
    }
}
