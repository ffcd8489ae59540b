//! A line that names a definition, for whoever goes over such lines.
ghost use Rattle.std.specs.Prelude.{◌≡◌, IfOk, map, true, false};
ghost use Rattle.algo_rules.specs.Links.{mentions};

use algo_rules::{Body, Case, Def, Reference};
use std::alloc::Global;
use std::marker::Model;
use syn_base::{Name, OutOfMemory};

/// A line that names a definition: a reference of a graph, or else a case, an `otherwise` or a repetition.
#[derive(Drop)]
pub struct Mention<'a> {
    line: u32,
    def: &'a Name,
    is_reference: bool,
}

impl<'a> Model for Mention<'a> {
    ghost use Rattle.algo_rules.specs.Links.{Mention as Line};

    ghost Value = { Line };

    ghost view = { λ m. record { line = m.line; def = m.def.now; is_reference = m.is_reference } };
}

impl<'a> Mention<'a> {
    /// The number of the line.
    pub fn line(&self) -> u32
        ensures { result ≡ self.now.line }
    {
        self.line
    }

    /// The name of the definition.
    pub fn def(&self) -> &'a Name
        ensures { result.now ≡ self.now.def }
    {
        self.def
    }

    /// Whether the line is a `ref` line.
    pub fn is_reference(&self) -> bool
        ensures { result ≡ self.now.is_reference }
    {
        self.is_reference
    }
}

/// The lines `ref` of a graph.
fn references_of<'a>(
    alloc: Global,
    references: &'a [Reference],
) -> Result<Vec<Mention<'a>>, OutOfMemory>
    ensures { IfOk result (λ ms. ms.items ≡ map
        (λ r. record { line = r.line; def = r.def; is_reference = true }) references.now) }
{
    let mut mentions = Vec::new(alloc);
    for reference in references {
        mentions.push(Mention {
            line: reference.line,
            def: &reference.def,
            is_reference: true,
        })?;
    }
    Ok(mentions)
}

/// The lines `case` of a switch.
fn cases_of<'a>(alloc: Global, cases: &'a [Case]) -> Result<Vec<Mention<'a>>, OutOfMemory>
    ensures { IfOk result (λ ms. ms.items ≡ map
        (λ c. record { line = c.line; def = c.def; is_reference = false }) cases.now) }
{
    let mut mentions = Vec::new(alloc);
    for case in cases {
        mentions.push(Mention {
            line: case.line,
            def: &case.def,
            is_reference: false,
        })?;
    }
    Ok(mentions)
}

/// The lines of a definition that name definitions, in order.
pub fn mentions_of<'a>(alloc: Global, def: &'a Def) -> Result<Vec<Mention<'a>>, OutOfMemory>
    ensures { IfOk result (λ ms. ms.items ≡ mentions def.now) }
{
    match &def.body {
        Body::Graph { references, .. } => references_of(alloc, references.as_slice()),
        Body::Switch {
            cases,
            otherwise,
            otherwise_line,
            ..
        } => {
            let mut mentions = cases_of(alloc, cases.as_slice())?;
            mentions.push(Mention {
                line: *otherwise_line,
                def: otherwise,
                is_reference: false,
            })?;
            Ok(mentions)
        }
        Body::Repeat { def: inner, .. } => {
            let mut mentions = Vec::new(alloc);
            mentions.push(Mention {
                line: def.line,
                def: inner,
                is_reference: false,
            })?;
            Ok(mentions)
        }
        _ => Ok(Vec::new(alloc)),
    }
}
