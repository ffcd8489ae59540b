//! Moves of a job on a table of words that one driver drives. `moves` calls it.
ghost use Rattle.std.specs.Prelude.{◌≡◌};
ghost use Rattle.word_table.specs.Driver.{AreDrivers};

use crate::moves::{Moves, number_of};
use phase_laws::Job;
use std::alloc::Global;
use syn_base::OutOfMemory;
use word_table::{Driver, Fabric, MicroAnswer, weave};

/// The letter of what a sequence answers to a try by its driver.
fn letter_of<'a>(fabric: &Fabric<'a>, driver: &mut Driver<'a>, seq: u32) -> u8
    requires { driver.old.fabric ≡ fabric.now }
    ensures { driver.new.fabric ≡ fabric.now }
{
    let groups = fabric.groups();
    if seq >= fabric.sequences() || groups == 0 || seq % groups != driver.group() {
        return b'?';
    }
    match fabric.try_micro(driver, seq) {
        MicroAnswer::Stepped => b's',
        MicroAnswer::NotYet => b'w',
        MicroAnswer::Finished => b'e',
    }
}

/// The letters of what these sequences answer, tried one after another.
fn letters_of<'a>(
    alloc: Global,
    fabric: &Fabric<'a>,
    driver: &mut Driver<'a>,
    digits: &[u8],
) -> Result<Vec<u8>, OutOfMemory>
    requires { driver.old.fabric ≡ fabric.now }
    ensures { driver.new.fabric ≡ fabric.now }
{
    let mut letters = Vec::new(alloc);
    for digit in digits {
        letters.push(letter_of(fabric, driver, number_of(*digit)))?;
    }
    Ok(letters)
}

/// Whether the moves come to what they should by the first of these drivers.
fn come_so_by<'a>(
    alloc: Global,
    fabric: &Fabric<'a>,
    drivers: &mut Vec<Driver<'a>>,
    moves: &Moves,
) -> Result<bool, OutOfMemory>
    requires { AreDrivers fabric.now drivers.old.items }
{
    if drivers.is_empty() {
        return Ok(false);
    }
    let _made = letters_of(alloc, fabric, &mut drivers[0], moves.made)?;
    let letters = letters_of(alloc, fabric, &mut drivers[0], moves.tried)?;
    Ok(letters.as_slice() == moves.letters)
}

/// Whether the moves of a job come to what they should, on a table of words.
pub(crate) fn come_so(alloc: Global, job: &Job, moves: &Moves) -> Result<bool, OutOfMemory> {
    let (fabric, mut drivers) = weave(alloc, job, 1)?;
    come_so_by(alloc, &fabric, &mut drivers, moves)
}
