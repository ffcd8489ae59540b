//! The instructions that act on the semaphores of a pair, and the only one that does so.
ghost use Rattle.std.specs.Prelude.{◌≡◌, ◌&&◌, nat_eq, slice_get};
ghost use Rattle.std.specs.List.{position_or_len};
ghost use Rattle.program_walks.specs.Walks.{all_at, every, implies};
ghost use Rattle.program_walks.specs.Acts.{is_act, is_only, passes};

use crate::instructions::{calls, signals_empty, signals_full, takes_empty, takes_full};
use crate::parts::turn_of;
use executive_program::{Instr, Program};

/// What is done on the semaphores of a pair, or the call of an operation, both by their number.
#[derive(Clone, Copy, Drop)]
pub enum Act {
    /// The writer waits for the empty semaphore.
    TakeEmpty,
    /// The writer signals the full semaphore.
    SignalFull,
    /// The reader waits for the full semaphore.
    TakeFull,
    /// The reader signals the empty semaphore.
    SignalEmpty,
    /// The operation is called.
    Call,
}

/// Where an instruction stands: its sequence, and its place there.
#[derive(Clone, Copy, Drop)]
pub struct Stand {
    pub sequence: usize,
    pub at: usize,
}

/// Whether an instruction does this on a pair, or calls the operation of that number.
fn is_act(instr: &Instr, act: Act, pair: usize) -> bool
    ensures { result ≡ is_act act pair instr.now }
{
    match act {
        Act::TakeEmpty => takes_empty(instr, pair),
        Act::SignalFull => signals_full(instr, pair),
        Act::TakeFull => takes_full(instr, pair),
        Act::SignalEmpty => signals_empty(instr, pair),
        Act::Call => calls(instr, pair),
    }
}

/// The first of these instructions that does this on a pair, or their number.
pub fn first_act(list: &[Instr], act: Act, pair: usize) -> usize
    ensures { result ≡ position_or_len (is_act act pair) list.now }
{
    for (place, instr) in list.iter().enumerate() {
        if is_act(instr, act, pair) {
            return place;
        }
    }
    list.len()
}

/// Whether the instruction at a place does this on a pair; false where the list ends before.
fn is_act_at(list: &[Instr], at: usize, act: Act, pair: usize) -> bool
    ensures { result ≡ passes (is_act act pair) (slice_get list.now at) }
{
    match list.get(at) {
        Some(instr) => is_act(instr, act, pair),
        None => false,
    }
}

/// Whether none of these instructions of a sequence does this on a pair, apart from the one that stands there.
fn no_other_in(list: &[Instr], sequence: usize, act: Act, pair: usize, stand: Stand) -> bool
    ensures { result ≡ all_at (λ b y. implies (is_act act pair y)
        (nat_eq sequence stand.sequence && nat_eq b stand.at)) 0 list.now }
{
    for (place, instr) in list.iter().enumerate() {
        let here = sequence == stand.sequence && place == stand.at;
        if is_act(instr, act, pair) && !here {
            return false;
        }
    }
    true
}

/// Whether no instruction of a loop does this on a pair, apart from the one that stands there.
fn no_other(program: &Program, act: Act, pair: usize, stand: Stand) -> bool
    ensures { result ≡ every program.now (λ t b y. implies (is_act act pair y)
        (nat_eq t stand.sequence && nat_eq b stand.at)) }
{
    for (sequence, code) in program.seqs.as_slice().iter().enumerate() {
        if !no_other_in(code.turn.as_slice(), sequence, act, pair, stand) {
            return false;
        }
    }
    true
}

/// Whether an instruction that does this on a pair stands there, and nowhere else.
pub fn is_only(program: &Program, act: Act, pair: usize, stand: Stand) -> bool
    ensures { result ≡ is_only program.now (is_act act pair) stand.sequence stand.at }
{
    is_act_at(turn_of(program, stand.sequence), stand.at, act, pair)
        && no_other(program, act, pair, stand)
}
