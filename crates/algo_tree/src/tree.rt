//! The tree that is kept whole: `Tree`, which resolving and each pass hand on.
ghost use Rattle.std.specs.Prelude.{◌≡◌, [], map, option_to_list, ◌++◌, IfOk, OnOk};
ghost use Rattle.algo_tree.specs.View.{kind_view, view, vertices_view};
ghost use Rattle.algo_tree.specs.Typed.{outs_of, source_length};
ghost use Rattle.algo_tree.specs.Ends.{first_length, sensor_length, sensor_lengths, sensor_lengths_in, actuator_length, actuator_lengths, actuator_lengths_in};
ghost use Rattle.algo_tree.specs.Counted.{operations};
ghost use Rattle.algo_tree.specs.Valid.{IsTree};

use crate::count::count_operations;
use crate::lens::source_len;
use crate::vertex::{Kind, Vertex};
use level_meaning::Source;
use std::alloc::Global;
use std::marker::Model;
use syn_base::{OutOfMemory, len_at};

/// The resolved algorithm: the main graph and all that is inside it, seen in contracts as plain
/// data. It is well formed, the lengths of its values fit, its sensors and actuators are numbered in
/// declared order, and it stands for at most 2,048 flat operations.
pub struct Tree {
    main: Vertex,
}

/// By hand, as that of a vertex.
impl Drop for Tree {
    fn drop(self) {
        let Tree { main: _ } = self;
    }
}

impl Model for Tree {
    ghost use Rattle.algo_tree.specs.Tree.{Vertex as Plain};
    ghost use Rattle.algo_tree.specs.Code.{vertex_code};
    ghost use Rattle.body_lang.specs.Code.{expr_code};
    ghost use Rattle.std.specs.Coded.{codes};

    ghost Value = { Plain };

    ghost coded = { vertex_code (Prim.hlevel (codes, expr_code (Prim.hlevel codes))) };

    ghost use Rattle.algo_tree.specs.View.{view as seen};
    ghost use Rattle.algo_tree.specs.Valid.{IsTree};

    ghost view = { λ t. seen t.main };

    ghost invariant = { λ t. IsTree (seen t.main) };
}

impl Tree {
    /// The tree of a valid main graph. It takes no memory.
    pub fn new(main: Vertex) -> Tree
        requires { IsTree (view main) }
        ensures { result ≡ view main }
    {
        Tree { main }
    }

    /// The lengths of the sensors, in declared order.
    pub fn sensor_lens(&self, alloc: Global) -> Result<Vec<u32>, OutOfMemory>
        ensures { IfOk result (λ lens. lens.items ≡ sensor_lengths self.now) }
    {
        sensor_lens_in(alloc, &self.main.inner)
    }

    /// The lengths of the actuators, in declared order.
    pub fn actuator_lens(&self, alloc: Global) -> Result<Vec<u32>, OutOfMemory>
        ensures { IfOk result (λ lens. lens.items ≡ actuator_lengths self.now) }
    {
        actuator_lens_in(alloc, &self.main.inner)
    }

    /// The number of flat operations that the tree stands for, at most 2,048. It takes no memory.
    pub fn operations(&self) -> u32
        ensures { result ≡ operations self.now }
    {
        count_operations(&self.main) as u32
    }

    /// The main graph. It takes no memory.
    pub fn main(&self) -> &Vertex
        ensures same { view result.now ≡ self.now }
        ensures valid { IsTree self.now }
    {
        &self.main
    }
}

/// The lengths of the sensors among these vertices, in order.
fn sensor_lens_in(alloc: Global, vertices: &[Vertex]) -> Result<Vec<u32>, OutOfMemory>
    ensures { IfOk result (λ lens. lens.items ≡ sensor_lengths_in (vertices_view vertices.now)) }
{
    let mut lens = Vec::new(alloc);
    for vertex in vertices {
        let len = sensor_len(&vertex.kind, vertex.outs.as_slice());
        add_len(&mut lens, len)?;
    }
    Ok(lens)
}

/// Adds a length, if there is one.
fn add_len(lens: &mut Vec<u32>, len: Option<u32>) -> Result<(), OutOfMemory>
    ensures { OnOk result (lens.new.items ≡ lens.old.items ++ option_to_list len) }
{
    if let Some(len) = len {
        lens.push(len)?;
    }
    Ok(())
}

/// The length of a vertex that is a sensor.
fn sensor_len(kind: &Kind, outs: &[u32]) -> Option<u32>
    ensures { option_to_list result ≡ sensor_length (kind_view kind.now) outs.now }
{
    match kind {
        Kind::Sensor(_) => Some(len_at(outs, 0)),
        _ => None,
    }
}

/// The lengths of the actuators among these vertices, in order.
fn actuator_lens_in(alloc: Global, vertices: &[Vertex]) -> Result<Vec<u32>, OutOfMemory>
    ensures { IfOk result (λ lens. lens.items ≡
        actuator_lengths_in (source_length [] (outs_of (vertices_view vertices.now)))
        (vertices_view vertices.now)) }
{
    let mut lens = Vec::new(alloc);
    for vertex in vertices {
        let len = actuator_len(vertices, &vertex.kind, vertex.ins.as_slice());
        add_len(&mut lens, len)?;
    }
    Ok(lens)
}

/// The length of a vertex of the main graph that is an actuator.
fn actuator_len(vertices: &[Vertex], kind: &Kind, ins: &[Source]) -> Option<u32>
    ensures { option_to_list result ≡ actuator_length (kind_view kind.now)
        (map (source_length [] (outs_of (vertices_view vertices.now))) ins.now) }
{
    match kind {
        Kind::Actuator(_) => Some(taken_len(vertices, ins)),
        _ => None,
    }
}

/// The length of the value that the first of these sources gives, where the level has no own inputs.
fn taken_len(vertices: &[Vertex], sources: &[Source]) -> u32
    ensures { result ≡ first_length (map (source_length [] (outs_of (vertices_view vertices.now))) sources.now) }
{
    match sources.first() {
        Some(source) => source_len(&[], vertices, *source),
        None => 0,
    }
}
