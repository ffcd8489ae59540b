//! Lists of one, two and three items, whatever these are: whoever makes a list of owned parts walks through one call.
use std::alloc::Global;
use syn_base::OutOfMemory;

/// A list of one item.
pub fn one<T: Drop>(alloc: Global, item: T) -> Result<Vec<T>, OutOfMemory> {
    let mut items = Vec::new(alloc);
    items.push(item)?;
    Ok(items)
}

/// A list of two items.
pub fn two<T: Drop>(alloc: Global, first: T, second: T) -> Result<Vec<T>, OutOfMemory> {
    let mut items = one(alloc, first)?;
    items.push(second)?;
    Ok(items)
}

/// A list of three items.
pub fn three<T: Drop>(alloc: Global, first: T, second: T, third: T) -> Result<Vec<T>, OutOfMemory> {
    let mut items = two(alloc, first, second)?;
    items.push(third)?;
    Ok(items)
}
