//! Vertices made of others, with which they share their lists: for the pass.
ghost use Rattle.std.specs.Prelude.{◌≡◌, IfOk};
ghost use Rattle.algo_tree.specs.View.{kind_view, view};
ghost use Rattle.multi_period.specs.Periods.{run as runs};
ghost use Rattle.multi_period.specs.Seen.{AreKept, ArePorts, label_seen, of_seen, relabelled as labelled, with_inner};

use crate::ports::{Ports, inputs_from};
use algo_tree::{Kind, Part, Source, Vertex, copy_bytes, share_each, share_kind};
use std::alloc::Global;
use syn_base::{Items, OutOfMemory, Shared};

/// What a vertex has whatever its part, its inputs and its kind.
#[derive(Drop)]
struct Kept {
    definition: Shared<u8>,
    outs: Shared<u32>,
    names: Shared<Items<u8>>,
}

/// What a vertex keeps, shared.
fn share_kept(vertex: &Vertex) -> Result<Kept, OutOfMemory>
    ensures { IfOk result (λ kept. AreKept kept (label_seen vertex.now)) }
{
    let definition = vertex.definition.share()?;
    let outs = vertex.outs.share()?;
    let names = vertex.names.share()?;
    Ok(Kept {
        definition,
        outs,
        names,
    })
}

/// A vertex without guards that has the definition and the outputs of this one.
pub fn relabelled(
    alloc: Global,
    vertex: &Vertex,
    part: Part,
    ins: Shared<Source>,
    kind: Kind,
    inner: Vec<Vertex>,
) -> Result<Vertex, OutOfMemory>
    ensures { let label = labelled (label_seen vertex.now) part ins (kind_view kind) in
        IfOk result (λ u. view u ≡ with_inner label inner.items) }
{
    let Kept {
        definition,
        outs,
        names,
    } = share_kept(vertex)?;
    let guards = vertex.guards.emptied(alloc)?;
    Ok(Vertex {
        part,
        definition,
        ins,
        guards,
        outs,
        names,
        kind,
        inner,
    })
}

/// The reference itself, inside the case in which it runs.
pub fn run(alloc: Global, vertex: &Vertex, ports: Ports) -> Result<Vertex, OutOfMemory>
    requires { ArePorts ports (label_seen vertex.now) }
    ensures { IfOk result (λ u. view u ≡ of_seen runs vertex.now) }
{
    let ins = inputs_from(alloc, 0, ports.ins)?;
    let name = copy_bytes(alloc, b"run")?;
    let kind = share_kind(&vertex.kind)?;
    let inner = share_each(alloc, &vertex.inner)?;
    let part = Part::Named(name);
    relabelled(alloc, vertex, part, Shared::new(alloc, ins)?, kind, inner)
}
