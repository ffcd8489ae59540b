//! The numbers of copies, by their places.
ghost use Rattle.std.specs.Prelude.{◌≡◌, ℕ, ◌<◌, ◌≤◌, nat_eq, length, IfOk, slice_index_or, replicate};
ghost use Rattle.std.specs.List.{position_or_len};

use std::alloc::Global;
use syn_base::{OutOfMemory, to_u32};

/// A table of this size, in which each entry is this number.
fn table_of(alloc: Global, size: usize, number: u32) -> Result<Vec<u32>, OutOfMemory>
    ensures { IfOk result (λ t. t.items ≡ replicate size number) }
{
    Ok(vec![in alloc; number; size]?)
}

/// How long a table is to be that has a place for each of these.
fn size_for(places: &[u32]) -> usize
    ensures { (k : ℕ) → result ≤ k → position_or_len (nat_eq k) places.now ≡ length places.now }
{
    let mut size = 0;
    for number in (0..places.len()).rev() {
        size = size.max(places[number] as usize + 1);
    }
    size
}

/// For each place the number, from 0, of the first of these that is this place. A place where none is has
/// the number of how many they are, or stands beyond the table, which is as long as these need it to be.
pub fn numbers_of(alloc: Global, places: &[u32]) -> Result<Vec<u32>, OutOfMemory>
    ensures { IfOk result (λ t. (k : ℕ) → slice_index_or t.items k (length places.now) ≡
        position_or_len (nat_eq k) places.now) }
{
    let size = size_for(places);
    let table = first_numbers(alloc, size, places)?;
    Ok(table)
}

/// For each place below `size` the number, from 0, of the first of these that is this place, and how
/// many they are where none is.
fn first_numbers(alloc: Global, size: usize, places: &[u32]) -> Result<Vec<u32>, OutOfMemory>
    ensures many { IfOk result (λ t. length t.items ≡ size) }
    ensures each { IfOk result (λ t. (k : ℕ) → k < size →
        slice_index_or t.items k 0 ≡ position_or_len (nat_eq k) places.now) }
{
    let count = to_u32(places.len())?;
    let mut table = table_of(alloc, size, count)?;
    for number in (0..count).rev() {
        let place = places[number as usize] as usize;
        if place < table.len() {
            table[place] = number;
        }
    }
    Ok(table)
}
