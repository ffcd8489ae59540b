//! The check of a text's numbers: the first that is above the stated one, or missing, media before
//! operations.
ghost use Rattle.std.specs.Prelude.{◌≡◌, ◌≤◌, All, length};
ghost use Rattle.syn_base.specs.Limits.{most_operations};
ghost use Rattle.actual_defs.specs.declared.fault.ActualFault.TheVariants.{Longer, Missing};
ghost use Rattle.actual_durations.specs.Actual.{duration_fault, is_slower, slower_medium, slower_operation};
ghost use Rattle.actual_durations.specs.Answers.{IsFault, IsOneOf, Tells};

use actual_defs::{ActualError, ActualFault};
use schedule::{Durations, Given, Medium, Vertex, entry};
use std::alloc::Global;
use syn_base::Name;

/// Refuses the first of these media that is slower than the stated one at its place.
pub fn check_media(alloc: Global, stated: &[Medium], actual: &[Medium]) -> Result<(), ActualError>
    requires { length stated.now ≡ length actual.now }
    ensures { Tells result (slower_medium stated.now actual.now) }
{
    for (place, medium) in actual.iter().enumerate() {
        if is_slower(&stated[place], medium) {
            return Err(longer(alloc, &medium.name));
        }
    }
    Ok(())
}

/// Whether a number of the medium is above the stated one.
fn is_slower(stated: &Medium, actual: &Medium) -> bool
    ensures { result ≡ is_slower stated.now actual.now }
{
    stated.fixed < actual.fixed || stated.per < actual.per
}

/// Refuses the first of these operations that lasts longer on its operator than the table says, or has no
/// duration there.
pub fn check_operations(
    alloc: Global,
    stated: &Durations,
    actual: &Given,
    vertices: &[Vertex],
    operators: &[Option<u32>],
) -> Result<(), ActualError>
    requires few { length vertices.now ≤ most_operations }
    requires each { length operators.now ≡ length vertices.now }
    requires there { All (IsOneOf actual.now.operators) operators.now }
    ensures { Tells result (slower_operation stated.now actual.now.lines 0 vertices.now operators.now) }
{
    for (op, vertex) in vertices.iter().enumerate() {
        if let Some(operator) = operators[op] {
            let limit = stated.ticks(op as u32, operator);
            check_duration(alloc, &vertex.def, limit, entry(actual, vertex, operator))?;
        }
    }
    Ok(())
}

/// Refuses a duration of a definition that is above the stated one, or missing.
fn check_duration(
    alloc: Global,
    def: &Name,
    stated: Option<u64>,
    actual: Option<u64>,
) -> Result<(), ActualError>
    ensures { Tells result (duration_fault def.now stated actual) }
{
    match (stated, actual) {
        (Some(stated), Some(actual)) if stated < actual => Err(longer(alloc, def)),
        (Some(_), None) => Err(missing(alloc, def)),
        _ => Ok(()),
    }
}

/// The refusal of a medium or a definition with a number above the stated one.
fn longer(alloc: Global, name: &Name) -> ActualError
    ensures { IsFault result (Longer name.now) }
{
    match name.copy(alloc) {
        Ok(name) => ActualError::Refused(ActualFault::Longer(name)),
        Err(_) => ActualError::OutOfMemory,
    }
}

/// The refusal of a definition that has no duration where one is stated.
fn missing(alloc: Global, name: &Name) -> ActualError
    ensures { IsFault result (Missing name.now) }
{
    match name.copy(alloc) {
        Ok(name) => ActualError::Refused(ActualFault::Missing(name)),
        Err(_) => ActualError::OutOfMemory,
    }
}
