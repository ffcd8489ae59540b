//! Moves of a program: which sequences are tried, one after another from its opening state, and what that comes to.
use crate::texts::{Texts, Worked, numbers};
use crate::{states, words};
use phase_laws::Job;
use std::alloc::Global;
use std::process::Abort;
use std::test::Fail;
use syn_base::OutOfMemory;

/// Sequences that are tried, and what is to be seen then.
#[derive(Clone, Copy)]
pub(crate) struct Moves<'a> {
    /// The digits of sequences that are tried first, whatever they answer.
    pub(crate) made: &'a [u8],
    /// The digits of those that are tried then, with the letter of what each answers: `s` where it makes a step,
    /// `w` where it waits, `e` at its end.
    pub(crate) tried: &'a [u8],
    pub(crate) letters: &'a [u8],
    /// The first sequence that can go on in the end.
    pub(crate) first: Option<u32>,
    /// What the actuators hold in the end, reaction by reaction.
    pub(crate) values: &'a [i64],
}

/// The number of a digit.
pub(crate) fn number_of(digit: u8) -> u32 {
    u32::from(digit.saturating_sub(b'0'))
}

/// Whether the moves of a job come to what they should, as a state and on a table of words.
fn come_so(alloc: Global, job: &Job, moves: &Moves) -> Result<(bool, bool), OutOfMemory> {
    let list = numbers(alloc, moves.made)?;
    let as_state = states::come_so(alloc, job, &list, moves)?;
    Ok((as_state, words::come_so(alloc, job, moves)?))
}

/// As `come_so`, of what was read of a program.
fn played(
    rt: &impl Abort,
    alloc: Global,
    worked: &Worked,
    moves: &Moves,
) -> Result<(bool, bool), Fail> {
    let job = worked.job(rt, alloc)?;
    Ok(come_so(alloc, &job, moves)?)
}

/// The moves of a program come to what they should, as a state and on a table of words.
pub(crate) fn play(
    rt: &impl Abort,
    alloc: Global,
    texts: &Texts,
    moves: &Moves,
) -> Result<(), Fail> {
    let worked = Worked::read(rt, alloc, texts)?;
    let came = played(rt, alloc, &worked, moves)?;
    assert_eq!(rt; came, (true, true));
    Ok(())
}
