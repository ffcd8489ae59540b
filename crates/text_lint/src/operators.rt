//! Operators on which nothing that takes time may stand.
ghost use Rattle.std.specs.Prelude.{◌≡◌, ◌++◌, ◌∷◌, [], OnOk, if◌then◌else◌, is_some, not};
ghost use Rattle.std.specs.List.{list_any};
ghost use Rattle.text_lint.specs.Architecture.{lets_stand, operators_from, why_idle};

use crate::durations::{number_at, why_idle};
use crate::finding::Finding;
use crate::known::Known;
use archi_defs::DurationLine;
use std::alloc::Global;
use syn_base::{Name, OutOfMemory};

/// Appends the operators on which nothing that takes time may stand by these durations, by the numbers of
/// the operators' lines.
pub fn append_operators(
    alloc: Global,
    known: &Known,
    lines: &[DurationLine],
    numbers: &[usize],
    operators: &[Name],
    found: &mut Vec<Finding>,
) -> Result<(), OutOfMemory>
    ensures { OnOk result (found.new.items ≡
        found.old.items ++ operators_from known.now lines.now numbers.now 0 operators.now) }
{
    for (operator, name) in operators.iter().enumerate() {
        let stands = may_stand_on(known, operator, lines);
        append_unless(alloc, stands, number_at(numbers, operator), name, found)?;
    }
    Ok(())
}

/// Appends an operator, unless something may stand on it.
fn append_unless(
    alloc: Global,
    stands: bool,
    number: usize,
    name: &Name,
    found: &mut Vec<Finding>,
) -> Result<(), OutOfMemory>
    ensures { OnOk result (found.new.items ≡
        found.old.items ++ (if stands then [] else Finding.IdleOperator number name.now ∷ [])) }
{
    if stands {
        return Ok(());
    }
    found.push(Finding::IdleOperator {
        line: number,
        operator: name.copy(alloc)?,
    })?;
    Ok(())
}

/// Whether one of these durations lets something stand on the operator.
fn may_stand_on(known: &Known, operator: usize, lines: &[DurationLine]) -> bool
    ensures { result ≡ list_any (lets_stand known.now operator) lines.now }
{
    for line in lines {
        if lets_stand(known, operator, line) {
            return true;
        }
    }
    false
}

/// Whether a duration lets something stand on the operator.
fn lets_stand(known: &Known, operator: usize, line: &DurationLine) -> bool
    ensures { result ≡ lets_stand known.now operator line.now }
{
    line.operator as usize == operator && changes_something(known, &line.def)
}

/// Whether a duration of this name changes something.
fn changes_something(known: &Known, name: &Name) -> bool
    ensures { result ≡ not (is_some (why_idle known.now name.now)) }
{
    match why_idle(known, name) {
        Some(_) => false,
        None => true,
    }
}
