//! The definitions of a text by their names, and which of them are named: what the search for findings asks.
ghost use Rattle.std.specs.Prelude.{◌≡◌, IfOk, option_copied, slice_get};
ghost use Rattle.syn_base.specs.Bytes.{Bytes};
ghost use Rattle.algo_rules.specs.Among.{is_among};
ghost use Rattle.algo_rules.specs.Well.{AreDistinctNames};
ghost use Rattle.algo_rules.specs.Links.{definition};
ghost use Rattle.algo_check.specs.Placing.{names_of};
ghost use Rattle.text_lint.specs.Named.{named_in};

use crate::named::{append_named, table_of};
use algo_rules::Def;
use std::alloc::Global;
use std::marker::Model;
use syn_base::OutOfMemory;
use text_lines::{Names, TableKey};

/// The definitions of a text, found by the hash of their names. Contracts see the definitions.
#[derive(Drop)]
pub struct Known<'a> {
    defs: &'a [Def],
    /// The names of the definitions, each at its place.
    names: Names<'a>,
    /// The names that lines name.
    used: Names<'a>,
}

impl<'a> Model for Known<'a> {
    ghost use Rattle.std.specs.Prelude.{List};
    ghost use Rattle.std.specs.Coded.{codes};
    ghost use Rattle.algo_rules.specs.BodyCode.{expr_code};
    ghost use Rattle.algo_rules.specs.declared.Def.{Def};
    ghost use Rattle.text_lint.specs.Named.{AreKnown};

    ghost Value = { List Def };

    ghost coded = { Prim.hlevel (codes, expr_code (Prim.hlevel codes)) };

    ghost view = { λ s. s.defs.now };

    ghost invariant = { λ s. AreKnown s.defs.now s.names s.used };
}

impl<'a> Known<'a> {
    /// The definitions of a text.
    pub fn new(alloc: Global, defs: &'a [Def]) -> Result<Known<'a>, OutOfMemory>
        requires { AreDistinctNames (names_of defs.now) }
        ensures { IfOk result (λ known. known ≡ defs.now) }
    {
        let names = names_of(alloc, defs)?;
        let used = used_in(alloc, defs)?;
        Ok(Known { defs, names, used })
    }

    /// The definition of a name. It takes no memory.
    pub fn definition(&self, name: &[u8]) -> Option<&'a Def>
        ensures { option_copied result ≡ definition self.now name.now }
    {
        match self.names.find(name) {
            Some(place) => def_at(self.defs, place),
            None => None,
        }
    }

    /// Whether a line names this name. It takes no memory.
    pub fn is_used(&self, name: &[u8]) -> bool
        ensures { result ≡ is_among name.now (named_in self.now) }
    {
        self.used.find(name).is_some()
    }
}

/// The definition at a place.
fn def_at(defs: &[Def], place: usize) -> Option<&Def>
    ensures { option_copied result ≡ slice_get defs.now place }
{
    if place < defs.len() {
        Some(&defs[place])
    } else {
        None
    }
}

/// The names of definitions, each at the place of its definition.
fn names_of<'a>(alloc: Global, defs: &'a [Def]) -> Result<Names<'a>, OutOfMemory>
    requires { AreDistinctNames (names_of defs.now) }
    ensures { IfOk result (λ names. names ≡ names_of defs.now) }
{
    let key = TableKey::of_names(defs.iter().map(|def| def.name.as_bytes()));
    let mut names = Names::new(alloc, key);
    for def in defs {
        names.add(def.name.as_bytes())?;
    }
    Ok(names)
}

/// The names that lines of these definitions name.
fn used_in<'a>(alloc: Global, defs: &'a [Def]) -> Result<Names<'a>, OutOfMemory>
    ensures { IfOk result (λ used. (w : Bytes) → is_among w used ≡ is_among w (named_in defs.now)) }
{
    let mut named = Vec::new(alloc);
    append_named(&mut named, defs)?;
    table_of(alloc, &named)
}
