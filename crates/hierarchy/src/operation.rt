//! The operations of a vertex, one by one. `inlining` adds them.
ghost use Rattle.std.specs.Prelude.{◌≡◌, ◌+◌, ◌*◌, ◌++◌, ◌∷◌, [], true, if◌then◌else◌, IsTrue, IfOk, OnOk, Some, codes, length, map};
ghost use Rattle.syn_base.specs.Name.{is_name};
ghost use Rattle.algo_tree.specs.Level.{Path};
ghost use Rattle.algo_tree.specs.declared.Source.TheVariants.{Of};
ghost use Rattle.algo_tree.specs.declared.vertex.Vertex.{out-Vertex};
ghost use Rattle.algo_tree.specs.View.{kind_view, label_view};
ghost use Rattle.flat_graph.specs.Meaning.{level_guard, level_source};
ghost use Rattle.flat_laws.specs.Flat.{runs};
ghost use Rattle.flat_laws.specs.Inlined.{operation_of, stages, wire_guard};
ghost use Rattle.flat_laws.specs.Names.{stage_text as text_of_stage};
ghost use Rattle.flat_laws.specs.Stands.{task_of};
ghost use Rattle.algo_tree.specs.Texts.{path_text};
ghost use Rattle.hierarchy.specs.Wires.{led};
ghost use Rattle.flat_laws.specs.Linked.{AllLinked, AreFound, GuardsFound, IsFound};
ghost use Rattle.flat_laws.specs.Numbering.{IsNumbered, body_count};
ghost use Rattle.hierarchy.specs.Built.{Adds, IsOperation, IsRun, graph_of, stage_pair};
ghost use Rattle.flat_laws.specs.FlatOf.{kind_body};

use crate::names::{glued, stage_text};
use crate::wires::{Level, follow};
use algo_tree::{Guard, Kind, Source, Vertex, copy_lens, copy_numbers};
use flat_graph::{Body, Guard as Condition, Kind as Task, Source as Output, Vertex as Operation};
use std::alloc::Global;
use syn_base::{Items, Name, NameFault, OutOfMemory, to_u32};

/// Operations and the bodies of their functions, as they are so far.
#[derive(Drop)]
pub struct Inlined {
    pub vertices: Vec<Operation>,
    pub bodies: Vec<Body>,
}

/// What an operation is beside the guards and the definition of its vertex.
#[derive(Drop)]
struct Form<'a> {
    name: Vec<u8>,
    task: Task,
    ins: Vec<Output>,
    outs: &'a [u32],
    twin: Option<u32>,
}

/// The output of an operation that a source of a level leads to.
fn output_of(level: &Level<'_>, source: Source) -> Output
    requires { IsFound (led level.now.leds.now level.now.own.now source) }
    ensures { level_source result ≡ led level.now.leds.now level.now.own.now source }
{
    match follow(level, source) {
        Source::Of(vertex, port) => Output { vertex, port },
        Source::Own(_) => unreachable!(),
    }
}

/// The outputs of operations that these sources lead to, in order.
fn outputs_of(
    alloc: Global,
    level: &Level<'_>,
    sources: &[Source],
) -> Result<Vec<Output>, OutOfMemory>
    requires { AreFound (map (led level.now.leds.now level.now.own.now) sources.now) }
    ensures { IfOk result (λ os. map level_source os.items ≡
        map (led level.now.leds.now level.now.own.now) sources.now) }
{
    let mut all = Vec::with_capacity(alloc, sources.len())?;
    for source in sources {
        all.push(output_of(level, *source))?;
    }
    Ok(all)
}

/// The guard of an operation, on the output that the source of a guard of the tree leads to.
fn condition(alloc: Global, level: &Level<'_>, guard: &Guard) -> Result<Condition, OutOfMemory>
    requires { IsFound (led level.now.leds.now level.now.own.now guard.now.source) }
    ensures { IfOk result (λ c. level_guard c ≡ wire_guard (led level.now.leds.now level.now.own.now) guard.now) }
{
    Ok(Condition {
        source: output_of(level, guard.source),
        values: copy_numbers(alloc, guard.values.as_slice())?,
        case: guard.case,
    })
}

/// The guards of an operation, in the order of those of the tree.
fn conditions(
    alloc: Global,
    level: &Level<'_>,
    guards: &[Guard],
) -> Result<Vec<Condition>, OutOfMemory>
    requires { GuardsFound (map (wire_guard (led level.now.leds.now level.now.own.now)) guards.now) }
    ensures { IfOk result (λ cs. map level_guard cs.items ≡
        map (wire_guard (led level.now.leds.now level.now.own.now)) guards.now) }
{
    let mut all = Vec::new(alloc);
    for guard in guards {
        all.push(condition(alloc, level, guard)?)?;
    }
    Ok(all)
}

/// The name of a definition.
fn definition(alloc: Global, text: &[u8]) -> Result<Name, OutOfMemory>
    requires { IsTrue (is_name text.now) }
    ensures { IfOk result (λ name. name ≡ text.now) }
{
    match Name::new(alloc, text) {
        Ok(name) => Ok(name),
        Err(NameFault::OutOfMemory) => Err(OutOfMemory),
        Err(NameFault::BadName) => unreachable!(),
    }
}

/// The operation of this form of a vertex of a level.
fn operation(
    alloc: Global,
    level: &Level<'_>,
    vertex: &Vertex,
    form: Form<'_>,
) -> Result<Operation, OutOfMemory>
    requires definition { IsTrue (is_name (out-Vertex vertex.now).definition) }
    requires guards { GuardsFound (map (wire_guard (led level.now.leds.now level.now.own.now))
        (out-Vertex vertex.now).guards) }
    ensures is { IfOk result (λ x. IsOperation (led level.now.leds.now level.now.own.now)
        (label_view (out-Vertex vertex.now)) (map level_source form.entry.ins.items)
        form.entry.outs.now x) }
    ensures name { IfOk result (λ x. x.name ≡ form.entry.name.items) }
    ensures task { IfOk result (λ x. x.kind ≡ form.entry.task) }
    ensures twin { IfOk result (λ x. x.twin ≡ form.entry.twin) }
{
    let def = definition(alloc, vertex.definition.as_slice())?;
    let guards = conditions(alloc, level, vertex.guards.as_slice())?;
    let outs = copy_lens(alloc, form.outs)?;
    Ok(Operation {
        name: Items::new(form.name),
        def,
        kind: form.task,
        guards: Items::new(guards),
        ins: Items::new(form.ins),
        outs,
        twin: form.twin,
    })
}

/// A stage of a delay: the text of the path of the delay, its number in it, and its initial value.
#[derive(Clone, Copy)]
struct Stage<'a> {
    path: &'a [u8],
    number: u32,
    values: &'a [i64],
}

/// What a stage of a delay with these sources takes, whose get half has number `get`: the value of the
/// stage after it, or the delay's input if it is the last.
fn stage_ins(
    alloc: Global,
    level: &Level<'_>,
    sources: &[Source],
    is_last: bool,
    get: u32,
) -> Result<Vec<Output>, OutOfMemory>
    requires { is_last ≡ true → AreFound (map (led level.now.leds.now level.now.own.now) sources.now) }
    ensures { IfOk result (λ os. map level_source os.items ≡
        (if is_last then map (led level.now.leds.now level.now.own.now) sources.now
        else Of (get + 2) 0 ∷ [])) }
{
    if is_last {
        return outputs_of(alloc, level, sources);
    }
    match get.checked_add(2) {
        Some(vertex) => Ok(vec![in alloc; Output { vertex, port: 0 }]?),
        None => Err(OutOfMemory),
    }
}

/// The name of a half of a stage: the text of the delay's path, what tells the halves apart, and the
/// text of the stage.
fn half_name(alloc: Global, stage: &Stage<'_>, half: &[u8]) -> Result<Vec<u8>, OutOfMemory>
    ensures { IfOk result (λ name. name.items ≡ stage.now.path.now ++ (half.now ++ text_of_stage stage.now.number)) }
{
    let text = stage_text(alloc, stage.number)?;
    glued(alloc, stage.path, half, &text)
}

/// The half of a stage that gives the kept value. The other half has number `set`.
fn get_half(
    alloc: Global,
    level: &Level<'_>,
    vertex: &Vertex,
    stage: &Stage<'_>,
    set: u32,
) -> Result<Operation, OutOfMemory>
    requires definition { IsTrue (is_name (out-Vertex vertex.now).definition) }
    requires guards { GuardsFound (map (wire_guard (led level.now.leds.now level.now.own.now))
        (out-Vertex vertex.now).guards) }
    ensures is { IfOk result (λ x. IsOperation (led level.now.leds.now level.now.own.now)
        (label_view (out-Vertex vertex.now)) [] (out-Vertex vertex.now).outs x) }
    ensures name { IfOk result (λ x. x.name ≡ stage.now.path.now ++ (codes ":get" ++ text_of_stage stage.now.number)) }
    ensures task { IfOk result (λ x. x.kind ≡ Task.Get stage.now.values.now) }
    ensures twin { IfOk result (λ x. x.twin ≡ Some set) }
{
    let name = half_name(alloc, stage, b":get")?;
    let task = Task::Get(copy_numbers(alloc, stage.values)?);
    let form = Form {
        name,
        task,
        ins: Vec::new(alloc),
        outs: vertex.outs.as_slice(),
        twin: Some(set),
    };
    operation(alloc, level, vertex, form)
}

/// The half of a stage that takes the next value, by what `ins` says. The other half has number `get`.
fn set_half(
    alloc: Global,
    level: &Level<'_>,
    vertex: &Vertex,
    stage: &Stage<'_>,
    ins: Vec<Output>,
    get: u32,
) -> Result<Operation, OutOfMemory>
    requires definition { IsTrue (is_name (out-Vertex vertex.now).definition) }
    requires guards { GuardsFound (map (wire_guard (led level.now.leds.now level.now.own.now))
        (out-Vertex vertex.now).guards) }
    ensures is { IfOk result (λ x. IsOperation (led level.now.leds.now level.now.own.now)
        (label_view (out-Vertex vertex.now)) (map level_source ins.items) [] x) }
    ensures name { IfOk result (λ x. x.name ≡ stage.now.path.now ++ (codes ":set" ++ text_of_stage stage.now.number)) }
    ensures task { IfOk result (λ x. x.kind ≡ Task.Set) }
    ensures twin { IfOk result (λ x. x.twin ≡ Some get) }
{
    let form = Form {
        name: half_name(alloc, stage, b":set")?,
        task: Task::Set,
        ins,
        outs: &[],
        twin: Some(get),
    };
    operation(alloc, level, vertex, form)
}

/// Adds the two halves of a stage of a delay, which takes what `ins` says: the first gives the kept
/// value, the second takes the next one.
fn add_stage(
    alloc: Global,
    level: &Level<'_>,
    vertex: &Vertex,
    stage: &Stage<'_>,
    ins: Vec<Output>,
    all: &mut Inlined,
) -> Result<(), OutOfMemory>
    requires definition { IsTrue (is_name (out-Vertex vertex.now).definition) }
    requires guards { GuardsFound (map (wire_guard (led level.now.leds.now level.now.own.now))
        (out-Vertex vertex.now).guards) }
    ensures count { OnOk result (length all.new.vertices.items ≡ length all.old.vertices.items + 2) }
    ensures added { OnOk result ((at : Path) → path_text at ≡ stage.now.path.now →
        Adds (graph_of all.old) (graph_of all.new)
        (λ b. stage_pair (led level.now.leds.now level.now.own.now) at stage.now.number
        (label_view (out-Vertex vertex.now)) stage.now.values.now (map level_source ins.items))) }
{
    let get = to_u32(all.vertices.len())?;
    let set = to_u32(all.vertices.len() + 1)?;
    all.vertices
        .push(get_half(alloc, level, vertex, stage, set)?)?;
    all.vertices
        .push(set_half(alloc, level, vertex, stage, ins, get)?)?;
    Ok(())
}

/// Adds the stages of a delay with these groups of initial values, from the first to the last.
pub fn add_delay(
    alloc: Global,
    level: &Level<'_>,
    vertex: &Vertex,
    path: &[u8],
    groups: &[Items<i64>],
    all: &mut Inlined,
) -> Result<(), OutOfMemory>
    requires definition { IsTrue (is_name (out-Vertex vertex.now).definition) }
    requires linked { AllLinked (stages (led level.now.leds.now level.now.own.now)
        (length all.old.vertices.items) [] (label_view (out-Vertex vertex.now)) 0 groups.now) }
    ensures count { OnOk result (length all.new.vertices.items ≡ length all.old.vertices.items +
        2 * length groups.now) }
    ensures added { OnOk result ((at : Path) → path_text at ≡ path.now →
        Adds (graph_of all.old) (graph_of all.new)
        (λ b. stages (led level.now.leds.now level.now.own.now) b at
        (label_view (out-Vertex vertex.now)) 0 groups.now)) }
{
    for at in 0..groups.len() {
        let is_last = at + 1 == groups.len();
        let get = to_u32(all.vertices.len())?;
        let ins = stage_ins(alloc, level, vertex.ins.as_slice(), is_last, get)?;
        let stage = Stage {
            path,
            number: to_u32(at)?,
            values: groups[at].as_slice(),
        };
        add_stage(alloc, level, vertex, &stage, ins, all)?;
    }
    Ok(())
}

/// Adds the body of a function, shared with the tree, and returns its number.
fn add_body(body: &Body, bodies: &mut Vec<Body>) -> Result<u32, OutOfMemory>
    ensures number { IfOk result (λ b. b ≡ length bodies.old.items) }
    ensures added { OnOk result (bodies.new.items ≡ bodies.old.items ++ body.now ∷ []) }
{
    let number = to_u32(bodies.len())?;
    bodies.push(body.share()?)?;
    Ok(number)
}

/// What the operation of a vertex of this kind is. The body of a function is added to the others.
fn task(alloc: Global, kind: &Kind, bodies: &mut Vec<Body>) -> Result<Task, OutOfMemory>
    requires { IsRun (kind_view kind.now) }
    ensures task { IfOk result (λ t. task_of bodies.new.items t ≡ runs (kind_view kind.now)) }
    ensures numbered { IfOk result (λ t. IsNumbered (length bodies.old.items) t) }
    ensures many { IfOk result (λ t. length (kind_body (kind_view kind.now)) ≡ body_count t) }
    ensures added { OnOk result (bodies.new.items ≡ bodies.old.items ++ kind_body (kind_view kind.now)) }
{
    Ok(match kind {
        Kind::Sensor(number) => Task::Sensor(*number),
        Kind::Actuator(number) => Task::Actuator(*number),
        Kind::Constant(values) => Task::Constant(copy_numbers(alloc, values.as_slice())?),
        Kind::Function(body) => Task::Function(add_body(body, bodies)?),
        Kind::Explode => Task::Explode,
        Kind::Implode => Task::Implode,
        Kind::Merge(values) => Task::Merge(copy_numbers(alloc, values.as_slice())?),
        Kind::Delay(_) | Kind::Graph(_) | Kind::Switch(..) | Kind::Repeat(..) => unreachable!(),
    })
}

/// Adds the one operation of a vertex.
pub fn add_operation(
    alloc: Global,
    level: &Level<'_>,
    vertex: &Vertex,
    path: Vec<u8>,
    all: &mut Inlined,
) -> Result<(), OutOfMemory>
    requires definition { IsTrue (is_name (out-Vertex vertex.now).definition) }
    requires ins { AreFound (map (led level.now.leds.now level.now.own.now) (out-Vertex vertex.now).ins) }
    requires guards { GuardsFound (map (wire_guard (led level.now.leds.now level.now.own.now))
        (out-Vertex vertex.now).guards) }
    requires kind { IsRun (kind_view (out-Vertex vertex.now).kind) }
    ensures count { OnOk result (length all.new.vertices.items ≡ length all.old.vertices.items + 1) }
    ensures added { OnOk result ((at : Path) → path_text at ≡ path.items →
        Adds (graph_of all.old) (graph_of all.new)
        (λ b. operation_of (led level.now.leds.now level.now.own.now) at 0
        (label_view (out-Vertex vertex.now))
        (map (led level.now.leds.now level.now.own.now) (out-Vertex vertex.now).ins)
        (out-Vertex vertex.now).outs (runs (kind_view (out-Vertex vertex.now).kind)) ∷ [])) }
{
    let ins = outputs_of(alloc, level, vertex.ins.as_slice())?;
    let form = Form {
        name: path,
        task: task(alloc, &vertex.kind, &mut all.bodies)?,
        ins,
        outs: vertex.outs.as_slice(),
        twin: None,
    };
    all.vertices.push(operation(alloc, level, vertex, form)?)?;
    Ok(())
}
