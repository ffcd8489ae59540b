//! Durations that change nothing.
ghost use Rattle.std.specs.Prelude.{◌≡◌, ◌++◌, OnOk, Some, slice_get, slice_index_or};
ghost use Rattle.algo_rules.specs.Links.{definition};
ghost use Rattle.text_lint.specs.Architecture.{duration_by, durations_from, idle_duration, is_timed, why_idle, why_of};

use crate::finding::{Finding, Why};
use crate::known::Known;
use algo_rules::{Body, Def};
use archi_defs::DurationLine;
use std::alloc::Global;
use syn_base::{Name, OutOfMemory};

/// Appends the durations that change nothing, for these operators and by the numbers of the durations' lines.
pub fn append_durations(
    alloc: Global,
    known: &Known,
    operators: &[Name],
    numbers: &[usize],
    lines: &[DurationLine],
    found: &mut Vec<Finding>,
) -> Result<(), OutOfMemory>
    ensures { OnOk result (found.new.items ≡
        found.old.items ++ durations_from known.now operators.now numbers.now 0 lines.now) }
{
    for (i, line) in lines.iter().enumerate() {
        let number = number_at(numbers, i);
        append_duration(alloc, known, operators, number, line, found)?;
    }
    Ok(())
}

/// The number at a place, 0 where there is none.
pub fn number_at(numbers: &[usize], at: usize) -> usize
    ensures { result ≡ slice_index_or numbers.now at 0 }
{
    if at < numbers.len() { numbers[at] } else { 0 }
}

/// Appends a duration, where it changes nothing.
fn append_duration(
    alloc: Global,
    known: &Known,
    operators: &[Name],
    number: usize,
    line: &DurationLine,
    found: &mut Vec<Finding>,
) -> Result<(), OutOfMemory>
    ensures { OnOk result (found.new.items ≡
        found.old.items ++ duration_by known.now operators.now number line.now) }
{
    match why_idle(known, &line.def) {
        Some(why) => append_idle(alloc, operators, number, line, why, found),
        None => Ok(()),
    }
}

/// Appends a duration that changes nothing.
fn append_idle(
    alloc: Global,
    operators: &[Name],
    number: usize,
    line: &DurationLine,
    why: Why,
    found: &mut Vec<Finding>,
) -> Result<(), OutOfMemory>
    ensures { OnOk result (found.new.items ≡ found.old.items ++
        idle_duration number line.now.def (Some why) (slice_get operators.now line.now.operator)) }
{
    let operator = line.operator as usize;
    if operator < operators.len() {
        append_on(alloc, number, &line.def, why, &operators[operator], found)
    } else {
        Ok(())
    }
}

/// Appends a duration on this operator that changes nothing.
fn append_on(
    alloc: Global,
    number: usize,
    def: &Name,
    why: Why,
    operator: &Name,
    found: &mut Vec<Finding>,
) -> Result<(), OutOfMemory>
    ensures { OnOk result (found.new.items ≡
        found.old.items ++ idle_duration number def.now (Some why) (Some operator.now)) }
{
    found.push(Finding::IdleDuration {
        line: number,
        def: def.copy(alloc)?,
        operator: operator.copy(alloc)?,
        why,
    })?;
    Ok(())
}

/// Why a duration of this name changes nothing, where it does not. It takes no memory.
pub fn why_idle(known: &Known, name: &Name) -> Option<Why>
    ensures { result ≡ why_idle known.now name.now }
{
    match known.definition(name.as_bytes()) {
        None => Some(Why::Unknown),
        Some(def) => why_of(known, name, def),
    }
}

/// The same for the definition of the name.
fn why_of(known: &Known, name: &Name, def: &Def) -> Option<Why>
    ensures { result ≡ why_of known.now name.now (Some def.now) }
{
    if !is_timed(&def.body) {
        Some(Why::Timeless)
    } else if known.is_used(name.as_bytes()) {
        None
    } else {
        Some(Why::Unused)
    }
}

/// Whether operations of a definition take time.
fn is_timed(body: &Body) -> bool
    ensures { result ≡ is_timed body.now }
{
    matches!(
        body,
        Body::Sensor(_) | Body::Actuator(_) | Body::Function { .. }
    )
}
