//! The names of definitions, found by hash.
ghost use Rattle.std.specs.Prelude.{◌≡◌, IfOk};
ghost use Rattle.algo_rules.specs.Well.{AreDistinctNames};
ghost use Rattle.algo_check.specs.Placing.{names_of};

use algo_rules::Def;
use std::alloc::Global;
use syn_base::OutOfMemory;
use text_lines::{Names, TableKey};

/// The names of definitions, each at the place of its definition.
pub fn names_of<'a>(alloc: Global, defs: &'a [Def]) -> Result<Names<'a>, OutOfMemory>
    requires { AreDistinctNames (names_of defs.now) }
    ensures { IfOk result (λ names. names ≡ names_of defs.now) }
{
    let key = TableKey::of_names(defs.iter().map(|def| def.name.as_bytes()));
    let mut names = Names::new(alloc, key);
    for def in defs {
        names.add(def.name.as_bytes())?;
    }
    Ok(names)
}
