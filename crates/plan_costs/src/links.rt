//! Which operations depend on which, and which outputs they read.
use crate::lists::Lists;
use crate::outputs::Outputs;
use durations::{Kind, Source, Vertex};
use std::alloc::Global;
use syn_base::OutOfMemory;

/// By operation the outputs that it reads, those on which it depends, and those that depend on it.
#[derive(Drop)]
pub struct Links {
    pub reads: Lists,
    pub before: Lists,
    pub after: Lists,
}

impl Links {
    /// The links of these operations.
    pub fn new(
        alloc: Global,
        vertices: &[Vertex],
        outputs: &Outputs,
    ) -> Result<Links, OutOfMemory> {
        let reads = Lists::new(alloc, vertices.len())?;
        let before = Lists::new(alloc, vertices.len())?;
        let after = Lists::new(alloc, vertices.len())?;
        let mut links = Links {
            reads,
            before,
            after,
        };
        links.add_all(vertices, outputs)?;
        Ok(links)
    }

    /// Adds the links of each operation.
    fn add_all(&mut self, vertices: &[Vertex], outputs: &Outputs) -> Result<(), OutOfMemory> {
        let mut op = 0u32;
        for vertex in vertices {
            self.add_guards(op, vertex, outputs)?;
            self.add_inputs(op, vertex, outputs)?;
            self.add_half(op, &vertex.kind, vertex.twin)?;
            op = op.saturating_add(1);
        }
        Ok(())
    }

    /// Adds the sources of an operation's guards.
    fn add_guards(
        &mut self,
        op: u32,
        vertex: &Vertex,
        outputs: &Outputs,
    ) -> Result<(), OutOfMemory> {
        for guard in vertex.guards.as_slice() {
            self.add_source(op, &guard.source, outputs)?;
        }
        Ok(())
    }

    /// Adds the sources of an operation's inputs.
    fn add_inputs(
        &mut self,
        op: u32,
        vertex: &Vertex,
        outputs: &Outputs,
    ) -> Result<(), OutOfMemory> {
        for source in vertex.ins.as_slice() {
            self.add_source(op, source, outputs)?;
        }
        Ok(())
    }

    /// Adds a source of an operation.
    fn add_source(
        &mut self,
        op: u32,
        source: &Source,
        outputs: &Outputs,
    ) -> Result<(), OutOfMemory> {
        self.reads.add(op, outputs.number(source))?;
        self.join(source.vertex, op)
    }

    /// A set half depends on its get half.
    fn add_half(&mut self, op: u32, kind: &Kind, twin: Option<u32>) -> Result<(), OutOfMemory> {
        if let Kind::Set = kind {
            if let Some(twin) = twin {
                self.join(twin, op)?;
            }
        }
        Ok(())
    }

    /// The second operation depends on the first.
    fn join(&mut self, first: u32, second: u32) -> Result<(), OutOfMemory> {
        self.before.add(second, first)?;
        self.after.add(first, second)
    }
}
