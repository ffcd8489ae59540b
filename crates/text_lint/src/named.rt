//! The names that the lines of definitions name, for `known`.
ghost use Rattle.std.specs.Prelude.{◌≡◌, ◌++◌, ◌∷◌, [], IfOk, OnOk, map};
ghost use Rattle.syn_base.specs.Bytes.{Bytes};
ghost use Rattle.algo_rules.specs.Among.{is_among};
ghost use Rattle.text_lint.specs.Named.{named_in};
ghost use Rattle.algo_check.specs.Linked.{named as named_by};

use algo_rules::{Body, Case, Def, Reference};
use std::alloc::Global;
use syn_base::OutOfMemory;
use text_lines::{Names, TableKey};

/// Appends the names that lines of these definitions name.
pub fn append_named<'a>(named: &mut Vec<&'a [u8]>, defs: &'a [Def]) -> Result<(), OutOfMemory>
    ensures { OnOk result (map (λ w. w.now) named.new.items ≡
        map (λ w. w.now) named.old.items ++ named_in defs.now) }
{
    for def in defs {
        append_named_by(named, &def.body)?;
    }
    Ok(())
}

/// Appends the names that the lines of a definition name.
fn append_named_by<'a>(named: &mut Vec<&'a [u8]>, body: &'a Body) -> Result<(), OutOfMemory>
    ensures { OnOk result (map (λ w. w.now) named.new.items ≡
        map (λ w. w.now) named.old.items ++ named_by body.now) }
{
    match body {
        Body::Graph { references, .. } => append_references(named, references.as_slice()),
        Body::Switch {
            cases,
            otherwise,
            ..
        } => {
            append_cases(named, cases.as_slice())?;
            append_name(named, otherwise.as_bytes())
        }
        Body::Repeat { def, .. } => append_name(named, def.as_bytes()),
        _ => Ok(()),
    }
}

/// Appends the definitions of references.
fn append_references<'a>(
    named: &mut Vec<&'a [u8]>,
    references: &'a [Reference],
) -> Result<(), OutOfMemory>
    ensures { OnOk result (map (λ w. w.now) named.new.items ≡
        map (λ w. w.now) named.old.items ++ map (λ r. r.def) references.now) }
{
    for reference in references {
        append_name(named, reference.def.as_bytes())?;
    }
    Ok(())
}

/// Appends the definitions of cases.
fn append_cases<'a>(named: &mut Vec<&'a [u8]>, cases: &'a [Case]) -> Result<(), OutOfMemory>
    ensures { OnOk result (map (λ w. w.now) named.new.items ≡
        map (λ w. w.now) named.old.items ++ map (λ c. c.def) cases.now) }
{
    for case in cases {
        append_name(named, case.def.as_bytes())?;
    }
    Ok(())
}

/// Appends a name.
fn append_name<'a>(named: &mut Vec<&'a [u8]>, name: &'a [u8]) -> Result<(), OutOfMemory>
    ensures { OnOk result (map (λ w. w.now) named.new.items ≡
        map (λ w. w.now) named.old.items ++ name.now ∷ []) }
{
    named.push(name)?;
    Ok(())
}

/// A table of these names, each once.
pub fn table_of<'a>(alloc: Global, named: &[&'a [u8]]) -> Result<Names<'a>, OutOfMemory>
    ensures { IfOk result (λ table. (w : Bytes) → is_among w table ≡
        is_among w (map (λ v. v.now) named.now)) }
{
    let key = TableKey::of_names(named.iter().map(|name| *name));
    let mut table = Names::new(alloc, key);
    for name in named {
        table.add(*name)?;
    }
    Ok(table)
}
