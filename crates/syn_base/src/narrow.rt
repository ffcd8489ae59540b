//! Counts as numbers of 32 bits: `to_u32`, for whoever numbers what a list holds.
ghost use Rattle.std.specs.Prelude.{◌≡◌, ◌^◌, ◌≤◌, IfErr, IfOk};

use crate::memory::OutOfMemory;

/// A count as a number of 32 bits. For a count that does not fit it returns want of memory, which as many
/// things would long have met.
pub fn to_u32(count: usize) -> Result<u32, OutOfMemory>
    ensures same { IfOk result (λ number. number ≡ count) }
    ensures large { IfErr result (λ _. 2 ^ 32 ≤ count) }
{
    match u32::try_from(count) {
        Ok(number) => Ok(number),
        Err(_) => Err(OutOfMemory),
    }
}
