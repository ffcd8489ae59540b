//! Definitions that no line names.
ghost use Rattle.std.specs.Prelude.{◌≡◌, ◌++◌, OnOk};
ghost use Rattle.algo_rules.specs.Links.{is_main};
ghost use Rattle.text_lint.specs.Algorithm.{unused, unused_by};

use crate::finding::Finding;
use crate::known::Known;
use algo_rules::Def;
use std::alloc::Global;
use syn_base::{Name, OutOfMemory};

/// Appends which of these definitions no line names.
pub fn append_unused(
    alloc: Global,
    known: &Known,
    defs: &[Def],
    found: &mut Vec<Finding>,
) -> Result<(), OutOfMemory>
    ensures { OnOk result (found.new.items ≡ found.old.items ++ unused known.now defs.now) }
{
    for def in defs {
        append_if_unused(alloc, known, def, found)?;
    }
    Ok(())
}

/// Appends a definition where no line names it.
fn append_if_unused(
    alloc: Global,
    known: &Known,
    def: &Def,
    found: &mut Vec<Finding>,
) -> Result<(), OutOfMemory>
    ensures { OnOk result (found.new.items ≡ found.old.items ++ unused_by known.now def.now) }
{
    if is_main(&def.name) || known.is_used(def.name.as_bytes()) {
        return Ok(());
    }
    found.push(Finding::UnusedDefinition {
        line: def.line as usize,
        def: def.name.copy(alloc)?,
    })?;
    Ok(())
}

/// Whether this is the name of the main graph.
fn is_main(name: &Name) -> bool
    ensures { result ≡ is_main name.now }
{
    name.as_bytes() == b"main".as_slice()
}
