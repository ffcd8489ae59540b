//! Moves of a job as a state: what its sequences answer, which one can go on, and what the actuators hold.
//! `moves` calls it.
ghost use Rattle.phase_laws.specs.Held.{IsOpened};

use crate::moves::{Moves, number_of};
use phase_laws::{Job, State, StepAnswer, run_fresh, try_step};
use progress_laws::first_enabled;
use std::alloc::Global;
use syn_base::OutOfMemory;
use worked_parts::values_of;

/// The letter of what a sequence answers to a try.
fn letter_of(job: &Job, state: &mut State, seq: u32) -> u8
    requires { IsOpened job.now state.old }
    ensures { IsOpened job.now state.new }
{
    if seq >= job.sequences() {
        return b'?';
    }
    match try_step(job, state, seq) {
        StepAnswer::Stepped => b's',
        StepAnswer::NotYet => b'w',
        StepAnswer::Finished => b'e',
    }
}

/// The letters of what these sequences answer, tried one after another.
fn letters_of(
    alloc: Global,
    job: &Job,
    state: &mut State,
    digits: &[u8],
) -> Result<Vec<u8>, OutOfMemory>
    requires { IsOpened job.now state.old }
    ensures { IsOpened job.now state.new }
{
    let mut letters = Vec::new(alloc);
    for digit in digits {
        letters.push(letter_of(job, state, number_of(*digit)))?;
    }
    Ok(letters)
}

/// Whether the moves of a job come to what they should, as a state. The list of those that are made is run whole.
pub(crate) fn come_so(
    alloc: Global,
    job: &Job,
    list: &[u32],
    moves: &Moves,
) -> Result<bool, OutOfMemory> {
    let mut state = run_fresh(alloc, job, list)?;
    let letters = letters_of(alloc, job, &mut state, moves.tried)?;
    let values = values_of(alloc, state.rows())?;
    Ok(
        letters.as_slice() == moves.letters
            && first_enabled(job, &state) == moves.first
            && values.as_slice() == moves.values,
    )
}
