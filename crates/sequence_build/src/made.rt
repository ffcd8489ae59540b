//! The copies of values that the acts of a schedule make: a buffer for each, and its place in a table.
ghost use Rattle.std.specs.Prelude.{◌≡◌, ◌∷◌, [], map, length, OnOk, IfOk, slice_get, slice_index_or};
ghost use Rattle.std.specs.List.{flat_map};
ghost use Rattle.sequence_build_laws.specs.Acts.{acts_of, carry, copy, made_by, outputs_from, run};
ghost use Rattle.sequence_build.specs.Numbers.{place};
ghost use Rattle.sequence_build.specs.Made.{Makes, buffer_of};
ghost use Rattle.sequence_build.specs.Plain.{outs_in};

use sequence_build_laws::{Buffer, Decision, Source, Transfer, Vertex, len_of};
use std::alloc::Global;
use syn_base::{OutOfMemory, to_u32};

/// The place of all copies that have none of their own, beyond every other.
const NOWHERE: u32 = 2_097_152;

/// The place of a copy in a table of the outputs of this many operations and of operators. The first
/// outputs come first, so that a table in which no operation has a second one is short.
pub fn place_of(operations: usize, operator: u32, source: Source) -> u32
    ensures { result ≡ place operations (copy operator source) }
{
    let vertex = source.vertex as usize;
    if operations <= 2048 && (vertex < operations && (source.port < 64 && operator < 16)) {
        ((source.port as usize * operations + vertex) * 16 + operator as usize) as u32
    } else {
        NOWHERE
    }
}

/// The lengths of the outputs of an operation, none where it is not there.
pub fn outs_of(vertices: &[Vertex], op: u32) -> &[u32]
    ensures { result.now ≡ outs_in (slice_get vertices.now op) }
{
    match vertices.get(op as usize) {
        Some(vertex) => vertex.outs.as_slice(),
        None => &[],
    }
}

/// The buffers of the copies that were made so far, of one place each, and the copies' places.
#[derive(Drop)]
pub struct Made {
    pub buffers: Vec<Buffer>,
    pub places: Vec<u32>,
}

impl Made {
    /// No copy was made.
    fn new(alloc: Global) -> Made
        ensures buffers { result.buffers.items ≡ [] }
        ensures places { result.places.items ≡ [] }
    {
        Made {
            buffers: Vec::new(alloc),
            places: Vec::new(alloc),
        }
    }

    /// One more copy.
    fn make(
        &mut self,
        vertices: &[Vertex],
        operator: u32,
        source: Source,
    ) -> Result<(), OutOfMemory>
        ensures { OnOk result (Makes vertices.now self.old self.new (copy operator source ∷ [])) }
    {
        self.buffers.push(Buffer {
            operator,
            len: len_of(vertices, source),
            depth: 1,
        })?;
        self.places
            .push(place_of(vertices.len(), operator, source))?;
        Ok(())
    }

    /// What these transfers bring.
    fn carry_all(&mut self, vertices: &[Vertex], transfers: &[Transfer]) -> Result<(), OutOfMemory>
        ensures { OnOk result (Makes vertices.now self.old self.new
            (flat_map (made_by vertices.now) (map carry transfers.now))) }
    {
        for transfer in transfers {
            self.make(vertices, transfer.to, transfer.source)?;
        }
        Ok(())
    }

    /// The outputs of an operation on its operator.
    fn give_all(
        &mut self,
        vertices: &[Vertex],
        decision: &Decision,
        outs: &[u32],
    ) -> Result<(), OutOfMemory>
        ensures { OnOk result (Makes vertices.now self.old self.new
            (map (copy decision.now.operator) (outputs_from decision.now.op 0 outs.now))) }
    {
        for (port, _out) in outs.iter().enumerate() {
            let source = Source {
                vertex: decision.op,
                port: to_u32(port)?,
            };
            self.make(vertices, decision.operator, source)?;
        }
        Ok(())
    }

    /// What the run of an operation makes.
    fn run(&mut self, vertices: &[Vertex], decision: &Decision) -> Result<(), OutOfMemory>
        ensures { OnOk result (Makes vertices.now self.old self.new (made_by vertices.now (run decision.now))) }
    {
        self.give_all(vertices, decision, outs_of(vertices, decision.op))?;
        Ok(())
    }

    /// What a decision makes.
    fn take(&mut self, vertices: &[Vertex], decision: &Decision) -> Result<(), OutOfMemory>
        ensures { OnOk result (Makes vertices.now self.old self.new
            (flat_map (made_by vertices.now) (acts_of (decision.now ∷ [])))) }
    {
        self.carry_all(vertices, decision.transfers.as_slice())?;
        self.run(vertices, decision)?;
        Ok(())
    }
}

/// All copies that the acts of these decisions make, in their order.
pub fn made_of(
    alloc: Global,
    vertices: &[Vertex],
    decisions: &[Decision],
) -> Result<Made, OutOfMemory>
    ensures buffers { IfOk result (λ m. m.buffers.items ≡
        map (buffer_of vertices.now) (flat_map (made_by vertices.now) (acts_of decisions.now))) }
    ensures places { IfOk result (λ m. m.places.items ≡
        map (place (length vertices.now))
        (flat_map (made_by vertices.now) (acts_of decisions.now))) }
{
    let mut made = Made::new(alloc);
    for decision in decisions {
        made.take(vertices, decision)?;
    }
    Ok(made)
}
