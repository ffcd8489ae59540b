//! All findings of a text, for whoever tells them.
ghost use Rattle.std.specs.Prelude.{◌≡◌, ◌++◌, IfOk, OnOk, codes};
ghost use Rattle.algo_rules.specs.Well.{AreDistinctNames};
ghost use Rattle.algo_check.specs.Placing.{names_of};
ghost use Rattle.archi_defs.specs.Text.{described_by};
ghost use Rattle.text_lint.specs.Algorithm.{algorithm_findings, findings_at};
ghost use Rattle.text_lint.specs.Numbered.{numbers_of};
ghost use Rattle.text_lint.specs.Architecture.{architecture_findings, durations_from, operators_from};

use crate::durations::append_durations;
use crate::elements::append_elements;
use crate::finding::Finding;
use crate::known::Known;
use crate::numbers::numbers_of;
use crate::operators::append_operators;
use crate::switches::append_never_taken;
use crate::unread::append_unread;
use crate::unused::append_unused;
use algo_rules::Def;
use archi_defs::ArchiText;
use std::alloc::Global;
use syn_base::OutOfMemory;

/// What of the text of an algorithm is accepted and probably not meant, in the order of the kinds of
/// `Finding`, and of one kind in the order of the text: definitions that no line names, elements outside
/// their ports, cases that are never taken, and delays that nobody reads.
pub fn algorithm_findings(alloc: Global, defs: &[Def]) -> Result<Vec<Finding>, OutOfMemory>
    requires { AreDistinctNames (names_of defs.now) }
    ensures { IfOk result (λ found. found.items ≡ algorithm_findings defs.now) }
{
    let known = Known::new(alloc, defs)?;
    let mut found = Vec::new(alloc);
    append_algorithm(alloc, &known, defs, &mut found)?;
    Ok(found)
}

/// Appends the findings at these definitions.
fn append_algorithm(
    alloc: Global,
    known: &Known,
    defs: &[Def],
    found: &mut Vec<Finding>,
) -> Result<(), OutOfMemory>
    ensures { OnOk result (found.new.items ≡ found.old.items ++ findings_at known.now defs.now) }
{
    append_unused(alloc, known, defs, found)?;
    append_elements(alloc, defs, found)?;
    append_never_taken(alloc, known, defs, found)?;
    append_unread(alloc, known, defs, found)
}

/// What of the text of an architecture is accepted and probably not meant beside an algorithm with these
/// definitions, in the same order: durations that change nothing, and operators on which nothing that takes
/// time may stand. `text` is what the architecture was read from, and gives the numbers of its lines.
pub fn architecture_findings(
    alloc: Global,
    defs: &[Def],
    text: &[u8],
    described: &ArchiText,
) -> Result<Vec<Finding>, OutOfMemory>
    requires { AreDistinctNames (names_of defs.now) }
    ensures { IfOk result (λ found. found.items ≡
        architecture_findings defs.now text.now (described_by described.now)) }
{
    let known = Known::new(alloc, defs)?;
    let mut found = Vec::new(alloc);
    append_idle_durations(alloc, &known, text, described, &mut found)?;
    append_idle_operators(alloc, &known, text, described, &mut found)?;
    Ok(found)
}

/// Appends the durations that change nothing.
fn append_idle_durations(
    alloc: Global,
    known: &Known,
    text: &[u8],
    described: &ArchiText,
    found: &mut Vec<Finding>,
) -> Result<(), OutOfMemory>
    ensures { OnOk result (found.new.items ≡ found.old.items ++ durations_from known.now
        described.now.archi.operators (numbers_of (codes "duration") text.now) 0
        described.now.lines) }
{
    let numbers = numbers_of(alloc, b"duration", text)?;
    let operators = described.archi.operators();
    append_durations(
        alloc,
        known,
        operators,
        &numbers,
        described.lines.as_slice(),
        found,
    )
}

/// Appends the operators on which nothing that takes time may stand.
fn append_idle_operators(
    alloc: Global,
    known: &Known,
    text: &[u8],
    described: &ArchiText,
    found: &mut Vec<Finding>,
) -> Result<(), OutOfMemory>
    ensures { OnOk result (found.new.items ≡ found.old.items ++ operators_from known.now
        described.now.lines (numbers_of (codes "operator") text.now) 0
        described.now.archi.operators) }
{
    let numbers = numbers_of(alloc, b"operator", text)?;
    let operators = described.archi.operators();
    append_operators(
        alloc,
        known,
        described.lines.as_slice(),
        &numbers,
        operators,
        found,
    )
}
