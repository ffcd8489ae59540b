//! The places at which the numbers from 0 on are declared.
ghost use Rattle.std.specs.Prelude.{◌≡◌, ℕ, None, IfOk, length, slice_index_or};
ghost use Rattle.macro_code.specs.Placed.{IsPlaced, TakesPlace};

use crate::numbered::Numbered;
use std::alloc::Global;
use syn_base::OutOfMemory;

/// What declarations are found to be.
#[derive(Drop)]
pub enum Places {
    /// They use the numbers from 0 on, each once: by number, the place of its declaration.
    Each(Vec<Option<usize>>),
    /// The line of the first one with a number that is too great or stands before.
    Wrong(u32),
}

/// No number has a place.
fn no_places(alloc: Global, count: usize) -> Result<Vec<Option<usize>>, OutOfMemory>
    ensures many { IfOk result (λ v. length v.items ≡ count) }
    ensures none { IfOk result (λ v. (n : ℕ) → slice_index_or v.items n None ≡ None) }
{
    let mut places = Vec::new(alloc);
    for _ in 0..count {
        places.push(None)?;
    }
    Ok(places)
}

/// Gives a number a place, unless it is too great or has one.
fn take_place(places: &mut Vec<Option<usize>>, number: u64, place: usize) -> bool
    ensures { TakesPlace result places.old.items number place places.new.items }
{
    if number >= places.len() as u64 {
        return false;
    }
    if places[number as usize].is_some() {
        return false;
    }
    places[number as usize] = Some(place);
    true
}

/// Where the numbers of these declarations stand.
pub fn places_of(alloc: Global, declared: &[Numbered]) -> Result<Places, OutOfMemory>
    ensures { IfOk result (λ found. IsPlaced found declared.now) }
{
    let mut places = no_places(alloc, declared.len())?;
    for (place, numbered) in declared.iter().enumerate() {
        if !take_place(&mut places, numbered.number, place) {
            return Ok(Places::Wrong(numbered.line));
        }
    }
    Ok(Places::Each(places))
}
