//! Copies of parts, guards and lists, for passes that make others of them.
ghost use Rattle.std.specs.Prelude.{◌≡◌, IfOk};

use level_meaning::{Guard, Part};
use std::alloc::Global;
use syn_base::{Items, OutOfMemory};

/// The same bytes.
pub fn copy_bytes(alloc: Global, bytes: &[u8]) -> Result<Items<u8>, OutOfMemory>
    ensures { IfOk result (λ copy. copy ≡ bytes.now) }
{
    Ok(Items::new(Vec::from_slice(alloc, bytes)?))
}

/// The same values.
pub fn copy_numbers(alloc: Global, numbers: &[i64]) -> Result<Items<i64>, OutOfMemory>
    ensures { IfOk result (λ copy. copy ≡ numbers.now) }
{
    Ok(Items::new(Vec::from_slice(alloc, numbers)?))
}

/// The same lengths.
pub fn copy_lens(alloc: Global, lens: &[u32]) -> Result<Items<u32>, OutOfMemory>
    ensures { IfOk result (λ copy. copy ≡ lens.now) }
{
    Ok(Items::new(Vec::from_slice(alloc, lens)?))
}

/// The same part of a path.
pub fn copy_part(alloc: Global, part: &Part) -> Result<Part, OutOfMemory>
    ensures { IfOk result (λ copy. copy ≡ part.now) }
{
    Ok(match part {
        Part::Named(name) => Part::Named(copy_bytes(alloc, name.as_slice())?),
        Part::Numbered(number) => Part::Numbered(*number),
        Part::Port(name) => Part::Port(copy_bytes(alloc, name.as_slice())?),
    })
}

/// The same guard.
pub fn copy_guard(alloc: Global, guard: &Guard) -> Result<Guard, OutOfMemory>
    ensures { IfOk result (λ copy. copy ≡ guard.now) }
{
    Ok(Guard {
        source: guard.source,
        values: copy_numbers(alloc, guard.values.as_slice())?,
        case: guard.case,
    })
}

/// The same guards, in order.
pub fn copy_guards(alloc: Global, guards: &[Guard]) -> Result<Vec<Guard>, OutOfMemory>
    ensures { IfOk result (λ copies. copies.items ≡ guards.now) }
{
    let mut copies = Vec::new(alloc);
    for guard in guards {
        copies.push(copy_guard(alloc, guard)?)?;
    }
    Ok(copies)
}
