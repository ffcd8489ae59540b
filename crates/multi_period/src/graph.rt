//! The graph that a marked reference becomes, vertex by vertex: for the pass.
ghost use Rattle.std.specs.Prelude.{◌≡◌, ◌≤◌, ◌<◌, ◌+◌, ◌^◌, IfOk, map, pos, replicate, slice_index_or, [], ◌∷◌};
ghost use Rattle.algo_tree.specs.Tree.{switch};
ghost use Rattle.algo_tree.specs.View.{kind_view, view, vertices_view};
ghost use Rattle.multi_period.specs.Periods.{body as bodied, count as counted, keep as kept, keep_name as kept_name, made as vertex_made, otherwise as kept_on, period as perioded, parts as perioded_parts, turns as turned, when_runs as runs_when};
ghost use Rattle.multi_period.specs.Seen.{ArePorts, body_ins as ins_of_body, both_cases, label_seen, of_seen};
ghost use Rattle.syn_base.specs.Vectors.{zeros as zeroed};

use crate::copies::{relabelled, run};
use crate::mark::Mark;
use crate::ports::{Ports, firsts, inputs_from, outputs_of, ports_of};
use algo_tree::{Kind, Part, Source, Vertex, copy_bytes, copy_part};
use std::alloc::Global;
use syn_base::{Items, OutOfMemory, Shared, len_at};

/// A vertex of a definition of its own, which listings call `every`.
fn make_vertex(
    alloc: Global,
    part: Part,
    ins: Vec<Source>,
    outs: Shared<u32>,
    kind: Kind,
    inner: Vec<Vertex>,
) -> Result<Vertex, OutOfMemory>
    ensures { let inside = vertices_view inner.items in
        IfOk result (λ u. view u ≡ vertex_made part ins.items outs (kind_view kind) inside) }
{
    let definition = Shared::new(alloc, Vec::from_slice(alloc, b"every")?)?;
    let ins = Shared::new(alloc, ins)?;
    let guards = Shared::empty(alloc)?;
    let names = Shared::empty(alloc)?;
    Ok(Vertex {
        part,
        definition,
        ins,
        guards,
        outs,
        names,
        kind,
        inner,
    })
}

/// A vertex made likewise, with the outputs of this one.
fn with_outputs(
    alloc: Global,
    vertex: &Vertex,
    part: Part,
    ins: Vec<Source>,
    kind: Kind,
    inner: Vec<Vertex>,
) -> Result<Vertex, OutOfMemory>
    ensures { let inside = vertices_view inner.items in
        let outs = (label_seen vertex.now).outs in
        IfOk result (λ u. view u ≡ vertex_made part ins.items outs (kind_view kind) inside) }
{
    let outs = vertex.outs.share()?;
    make_vertex(alloc, part, ins, outs, kind, inner)
}

/// A list of one number.
fn number(alloc: Global, value: i64) -> Result<Items<i64>, OutOfMemory>
    ensures { IfOk result (λ vs. vs ≡ value ∷ []) }
{
    Ok(Items::new(vec![in alloc; value]?))
}

/// As many lists of the number 1 as this says.
fn ones(alloc: Global, many: u32) -> Result<Vec<Items<i64>>, OutOfMemory>
    ensures { IfOk result (λ vs. vs.items ≡ replicate many (pos 1 ∷ [])) }
{
    let mut all = Vec::new(alloc);
    for made in 0..many {
        all.push(number(alloc, 1)?)?;
    }
    Ok(all)
}

/// The initial values of a count, one for each reaction that it looks back: 0, and then 1 in all others.
fn turns(alloc: Global, every: u32) -> Result<Vec<Items<i64>>, OutOfMemory>
    requires { 1 ≤ every }
    ensures { IfOk result (λ vs. vs.items ≡ turned every) }
{
    let mut all = ones(alloc, every - 1)?;
    all.insert(0, number(alloc, 0)?)?;
    Ok(all)
}

/// A delay that gives 0 in each reaction that `every` divides, and else 1.
fn count(alloc: Global, every: u32) -> Result<Vertex, OutOfMemory>
    requires { 1 ≤ every }
    ensures { IfOk result (λ u. view u ≡ counted every) }
{
    let ins = vec![in alloc; Source::Of(0, 0)]?;
    let outs = Shared::new(alloc, vec![in alloc; 1]?)?;
    let name = copy_bytes(alloc, b"count")?;
    let kind = Kind::Delay(Shared::new(alloc, turns(alloc, every)?)?);
    make_vertex(alloc, Part::Named(name), ins, outs, kind, Vec::new(alloc))
}

/// One group of as many zeros as an output has elements.
fn zeros(alloc: Global, len: u32) -> Result<Shared<Items<i64>>, OutOfMemory>
    ensures { IfOk result (λ vs. vs ≡ zeroed len ∷ []) }
{
    let group = Items::new(vec![in alloc; 0i64; len as usize]?);
    Shared::new(alloc, vec![in alloc; group]?)
}

/// The name of what keeps the output of this number.
fn keep_name(alloc: Global, names: &[Items<u8>], output: usize) -> Result<Items<u8>, OutOfMemory>
    ensures { IfOk result (λ bytes. bytes ≡ kept_name names.now output) }
{
    let mut bytes = Vec::from_slice(alloc, b"keep_")?;
    if output < names.len() {
        bytes.extend_from_slice(names[output].as_slice())?;
    }
    Ok(Items::new(bytes))
}

/// A delay that keeps an output of the switch for a reaction.
fn keep(alloc: Global, vertex: &Vertex, ports: Ports, output: u32) -> Result<Vertex, OutOfMemory>
    requires { ArePorts ports (label_seen vertex.now) }
    ensures { IfOk result (λ u. view u ≡ kept (label_seen vertex.now) output) }
{
    let len = len_at(vertex.outs.as_slice(), output as usize);
    let name = keep_name(alloc, vertex.names.as_slice(), output as usize)?;
    let ins = vec![in alloc; Source::Of(ports.switch, output)]?;
    let outs = Shared::new(alloc, vec![in alloc; len]?)?;
    let kind = Kind::Delay(zeros(alloc, len)?);
    make_vertex(alloc, Part::Named(name), ins, outs, kind, Vec::new(alloc))
}

/// The case in which the reference runs.
fn when_runs(alloc: Global, vertex: &Vertex, ports: Ports) -> Result<Vertex, OutOfMemory>
    requires { ArePorts ports (label_seen vertex.now) }
    ensures { IfOk result (λ u. view u ≡ of_seen runs_when vertex.now) }
{
    let ins = inputs_from(alloc, 1, ports.ins)?;
    let outputs = outputs_of(alloc, 0, ports.outs)?;
    let mut inner = Vec::new(alloc);
    inner.push(run(alloc, vertex, ports)?)?;
    let kind = Kind::Graph(Shared::new(alloc, outputs)?);
    with_outputs(alloc, vertex, Part::Numbered(0), ins, kind, inner)
}

/// The other case, which gives the kept values.
fn otherwise(alloc: Global, vertex: &Vertex, ports: Ports) -> Result<Vertex, OutOfMemory>
    requires { ArePorts ports (label_seen vertex.now) }
    ensures { IfOk result (λ u. view u ≡ kept_on (label_seen vertex.now)) }
{
    let ins = inputs_from(alloc, ports.kept, ports.outs)?;
    let kind = Kind::Graph(Shared::new(alloc, inputs_from(alloc, 0, ports.outs)?)?);
    with_outputs(alloc, vertex, Part::Numbered(1), ins, kind, Vec::new(alloc))
}

/// The inputs of the switch: the count, those of the reference, and the kept values.
fn body_ins(alloc: Global, ports: Ports) -> Result<Vec<Source>, OutOfMemory>
    requires { (ports.ins + ports.outs) + 1 < 2 ^ 32 }
    ensures { IfOk result (λ ss. ss.items ≡ ins_of_body ports.ins ports.outs) }
{
    let mut all = vec![in alloc; Source::Of(0, 0)]?;
    all.extend_from_slice(inputs_from(alloc, 0, ports.ins)?.as_slice())?;
    all.extend_from_slice(firsts(alloc, ports.outs)?.as_slice())?;
    Ok(all)
}

/// The two cases of the switch.
fn cases(alloc: Global, vertex: &Vertex, ports: Ports) -> Result<Vec<Vertex>, OutOfMemory>
    requires { ArePorts ports (label_seen vertex.now) }
    ensures { IfOk result (λ us. vertices_view us.items ≡ of_seen both_cases vertex.now) }
{
    let mut cases = Vec::new(alloc);
    cases.push(when_runs(alloc, vertex, ports)?)?;
    cases.push(otherwise(alloc, vertex, ports)?)?;
    Ok(cases)
}

/// A switch whose first case runs at 0, and whose outputs have these names.
fn switch_at_zero(alloc: Global, names: &Shared<Items<u8>>) -> Result<Kind, OutOfMemory>
    ensures { IfOk result (λ kind. kind_view kind ≡ switch (pos 0 ∷ []) names.now) }
{
    let values = Shared::new(alloc, vec![in alloc; 0]?)?;
    Ok(Kind::Switch(values, names.share()?))
}

/// The switch between the two cases.
fn body(alloc: Global, vertex: &Vertex, ports: Ports) -> Result<Vertex, OutOfMemory>
    requires { ArePorts ports (label_seen vertex.now) }
    ensures { IfOk result (λ u. view u ≡ of_seen bodied vertex.now) }
{
    let ins = body_ins(alloc, ports)?;
    let name = copy_bytes(alloc, b"body")?;
    let kind = switch_at_zero(alloc, &vertex.names)?;
    let inner = cases(alloc, vertex, ports)?;
    with_outputs(alloc, vertex, Part::Named(name), ins, kind, inner)
}

/// The count, a delay for each output, and the switch.
fn parts(
    alloc: Global,
    vertex: &Vertex,
    ports: Ports,
    mark: Mark,
) -> Result<Vec<Vertex>, OutOfMemory>
    requires ports { ArePorts ports (label_seen vertex.now) }
    requires some { 1 ≤ mark.every }
    ensures { IfOk result (λ us. map view us.items ≡ of_seen (perioded_parts mark) vertex.now) }
{
    let mut all = vec![in alloc; count(alloc, mark.every)?]?;
    for output in 0..ports.outs {
        all.push(keep(alloc, vertex, ports, output)?)?;
    }
    all.push(body(alloc, vertex, ports)?)?;
    Ok(all)
}

/// The graph that a marked reference becomes.
pub fn period(alloc: Global, vertex: &Vertex, mark: Mark) -> Result<Vertex, OutOfMemory>
    requires { 1 ≤ mark.every }
    ensures { IfOk result (λ u. view u ≡ of_seen (perioded mark) vertex.now) }
{
    let ports = ports_of(vertex)?;
    let ins = vertex.ins.share()?;
    let outputs = outputs_of(alloc, ports.switch, ports.outs)?;
    let part = copy_part(alloc, &vertex.part)?;
    let inner = parts(alloc, vertex, ports, mark)?;
    let kind = Kind::Graph(Shared::new(alloc, outputs)?);
    relabelled(alloc, vertex, part, ins, kind, inner)
}
