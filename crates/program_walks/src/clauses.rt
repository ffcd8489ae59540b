//! The checks with what they say of a well-formed program, which callers of the crate ask for.
ghost use Rattle.std.specs.Prelude.{◌≡◌, ℕ, ◌<◌, Some, length, map, true};
ghost use Rattle.executive_program.specs.Instructions.{prologue, readers};
ghost use Rattle.executive_program.specs.Places.{opening_of, places};
ghost use Rattle.executive_program.specs.WellFormed.{IsBuffer, IsPair, operator_of};
ghost use Rattle.program_walks.specs.Buffers.{are_buffers};
ghost use Rattle.program_walks.specs.Opened.{are_opened};
ghost use Rattle.program_walks.specs.Pairs.{are_pairs};

use crate::buffers::are_right;
use crate::guarding::are_guarded;
use crate::opening::are_opened;
use executive_program::Program;

/// Whether each buffer is written once, touched on its own operator alone, written before it is read
/// where one sequence does both, and has one to four places, one where no pair guards it.
pub fn buffers_are_right(program: &Program, order: &[u32]) -> bool
    ensures test { result ≡ are_buffers program.now }
    ensures sound { result ≡ true → (b : ℕ) → b < length program.now.buffers →
        IsBuffer program.now order.now (places program.now) b }
    ensures complete { ((b : ℕ) → b < length program.now.buffers →
        IsBuffer program.now order.now (places program.now) b) → result ≡ true }
{
    are_right(program)
}

/// Whether there is one pair of semaphores for each buffer and each sequence that reads it and does not
/// write it, by buffer and then by sequence, on the buffer's operator; and each pair has its four places
/// in order round the write and the reads of its reader.
pub fn pairs_guard(program: &Program, order: &[u32]) -> bool
    ensures test { result ≡ are_pairs program.now order.now }
    ensures numbered { result ≡ true → map (λ o. Some o) program.now.pairs ≡
        map (λ r. operator_of program.now r.buffer) (readers program.now) }
    ensures sound { result ≡ true → (q : ℕ) → q < length program.now.pairs →
        IsPair program.now order.now (places program.now) q }
    ensures complete { map (λ o. Some o) program.now.pairs ≡
        map (λ r. operator_of program.now r.buffer) (readers program.now) →
        ((q : ℕ) → q < length program.now.pairs →
        IsPair program.now order.now (places program.now) q) → result ≡ true }
{
    are_guarded(program, order)
}

/// Whether each prologue has, for each pair of which its sequence is the reader, by number, a signal of the
/// empty semaphore for each place of the buffer, and nothing else, where the pairs are numbered right.
pub fn prologues_open(program: &Program) -> bool
    ensures test { result ≡ are_opened program.now }
    ensures sound { result ≡ true → (s : ℕ) → s < length program.now.seqs →
        prologue program.now s ≡ opening_of program.now s }
    ensures complete { map (λ o. Some o) program.now.pairs ≡
        map (λ r. operator_of program.now r.buffer) (readers program.now) →
        ((s : ℕ) → s < length program.now.seqs →
        prologue program.now s ≡ opening_of program.now s) → result ≡ true }
{
    are_opened(program)
}
