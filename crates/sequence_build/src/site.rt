//! The instructions of a schedule's acts, put into the loops of their sequences.
ghost use Rattle.std.specs.Prelude.{◌≡◌, ℕ, ◌<◌, ◌++◌, ◌∷◌, [], cond, map, nat_eq, None, Some, OnOk, IfOk, slice_get, vec_len, length};
ghost use Rattle.std.specs.List.{flat_map, position_or_len};
ghost use Rattle.sequence_build_laws.specs.Acts.{acts_of, carry, copy, made_by, outputs_from, read_by, run};
ghost use Rattle.sequence_build_laws.specs.declared.Instr.TheVariants.{Call, Recv, Send, Sync};
ghost use Rattle.sequence_build_laws.specs.Instructions.{same_medium};
ghost use Rattle.sequence_build_laws.specs.Serial.{is_other, same_seq, step};
ghost use Rattle.sequence_build.specs.Plain.{Adds, HasLoops, guards_in, ins_in, loop_at, numbering, sequence_of, steps_at, waits_from};

use crate::made::{outs_of, place_of};
use sequence_build_laws::{Decision, Guard, Instr, Seq, Source, Transfer, Vertex};
use std::alloc::Global;
use syn_base::{Items, OutOfMemory, to_u32};

/// The operations, the sequences, the numbers of copies by their places, and how many copies there are.
#[derive(Clone, Copy)]
pub struct Site<'a> {
    pub vertices: &'a [Vertex],
    pub sequences: &'a [Seq],
    pub numbers: &'a [u32],
    pub copies: u32,
}

/// Adds an instruction to a loop.
fn push_instr(instrs: &mut Vec<Instr>, instr: Instr) -> Result<(), OutOfMemory>
    ensures { OnOk result (instrs.new.items ≡ instrs.old.items ++ instr ∷ []) }
{
    instrs.push(instr)?;
    Ok(())
}

/// Adds an instruction to the loop at a place, if that is there.
fn push_at(loops: &mut Vec<Vec<Instr>>, at: u32, instr: Instr) -> Result<(), OutOfMemory>
    ensures many { vec_len loops.new ≡ vec_len loops.old }
    ensures adds { OnOk result ((s : ℕ) → s < vec_len loops.old →
        loop_at loops.new.items s ≡ loop_at loops.old.items s ++
        cond (nat_eq at s) (instr ∷ []) []) }
{
    let at = at as usize;
    if at < loops.len() {
        push_instr(&mut loops[at], instr)?;
    }
    Ok(())
}

/// Adds an instruction to the loop of a sequence, if that is there.
fn push_step(loops: &mut Vec<Vec<Instr>>, sequence: u32, instr: Instr) -> Result<(), OutOfMemory>
    ensures many { vec_len loops.new ≡ vec_len loops.old }
    ensures adds { OnOk result (Adds loops.old.items loops.new.items (step sequence instr ∷ [])) }
{
    push_at(loops, sequence, instr)?;
    Ok(())
}

/// Whether this is a communicator of the transfer's medium at another operator than the transfer's.
pub fn is_other(transfer: Transfer, seq: Seq) -> bool
    ensures { result ≡ is_other transfer seq }
{
    match seq.medium {
        Some(medium) => {
            medium == transfer.medium
                && seq.operator != transfer.from
                && seq.operator != transfer.to
        }
        None => false,
    }
}

/// Whether both are communicators of one medium, or neither is a communicator.
fn is_same_medium(medium: Option<u32>, other: Option<u32>) -> bool
    ensures { result ≡ same_medium medium other }
{
    match (medium, other) {
        (None, None) => true,
        (Some(medium), Some(other)) => medium == other,
        _ => false,
    }
}

/// Whether both are one sequence of the architecture.
fn is_same(seq: Seq, other: Seq) -> bool
    ensures { result ≡ same_seq seq other }
{
    seq.operator == other.operator && is_same_medium(seq.medium, other.medium)
}

/// The place of a sequence among these, and how many they are where it is not there.
fn find(sequences: &[Seq], seq: Seq) -> Result<u32, OutOfMemory>
    ensures { IfOk result (λ n. n ≡ position_or_len (same_seq seq) sequences.now) }
{
    for (place, other) in sequences.iter().enumerate() {
        if is_same(seq, *other) {
            return to_u32(place);
        }
    }
    to_u32(sequences.len())
}

/// The guards of an operation, none where it is not there.
fn guards_of(vertices: &[Vertex], op: u32) -> &[Guard]
    ensures { result.now ≡ guards_in (slice_get vertices.now op) }
{
    match vertices.get(op as usize) {
        Some(vertex) => vertex.guards.as_slice(),
        None => &[],
    }
}

/// The inputs of an operation, none where it is not there.
fn ins_of(vertices: &[Vertex], op: u32) -> &[Source]
    ensures { result.now ≡ ins_in (slice_get vertices.now op) }
{
    match vertices.get(op as usize) {
        Some(vertex) => vertex.ins.as_slice(),
        None => &[],
    }
}

impl<'a> Site<'a> {
    /// The number of the buffer of a copy.
    pub fn buffer(&self, operator: u32, source: Source) -> u32
        ensures { result ≡ numbering self.now (copy operator source) }
    {
        let place = place_of(self.vertices.len(), operator, source) as usize;
        if place < self.numbers.len() {
            self.numbers[place]
        } else {
            self.copies
        }
    }

    /// The number of an operator's sequence.
    pub fn sequence(&self, operator: u32, medium: Option<u32>) -> Result<u32, OutOfMemory>
        ensures { IfOk result (λ n. n ≡ sequence_of self.now.sequences.now operator medium) }
    {
        find(self.sequences, Seq { operator, medium })
    }

    /// The waits for a transfer in the other communicators of its medium.
    fn wait_all(&self, loops: &mut Vec<Vec<Instr>>, transfer: Transfer) -> Result<(), OutOfMemory>
        ensures many { vec_len loops.new ≡ vec_len loops.old }
        ensures adds { OnOk result (Adds loops.old.items loops.new.items
            (waits_from transfer 0 self.now.sequences.now)) }
    {
        for (place, seq) in self.sequences.iter().enumerate() {
            if is_other(transfer, *seq) {
                let sequence = to_u32(place)?;
                let wait = Instr::Sync {
                    from: transfer.from,
                    to: transfer.to,
                };
                push_step(loops, sequence, wait)?;
            }
        }
        Ok(())
    }

    /// A transfer: the send, the receive, and the waits of the others.
    fn carry(&self, loops: &mut Vec<Vec<Instr>>, transfer: Transfer) -> Result<(), OutOfMemory>
        ensures many { vec_len loops.new ≡ vec_len loops.old }
        ensures adds { OnOk result (Adds loops.old.items loops.new.items (steps_at self.now (carry transfer))) }
    {
        let sender = self.sequence(transfer.from, Some(transfer.medium))?;
        let receiver = self.sequence(transfer.to, Some(transfer.medium))?;
        let send = Instr::Send {
            buffer: self.buffer(transfer.from, transfer.source),
            to: transfer.to,
        };
        push_step(loops, sender, send)?;
        let receive = Instr::Recv {
            buffer: self.buffer(transfer.to, transfer.source),
            from: transfer.from,
        };
        push_step(loops, receiver, receive)?;
        self.wait_all(loops, transfer)?;
        Ok(())
    }

    /// Transfers in succession.
    fn carry_all(
        &self,
        loops: &mut Vec<Vec<Instr>>,
        transfers: &[Transfer],
    ) -> Result<(), OutOfMemory>
        ensures many { vec_len loops.new ≡ vec_len loops.old }
        ensures adds { OnOk result (Adds loops.old.items loops.new.items
            (flat_map (steps_at self.now) (map carry transfers.now))) }
    {
        for transfer in transfers {
            self.carry(loops, *transfer)?;
        }
        Ok(())
    }

    /// Adds the buffers of the sources of these guards.
    fn read_guards(
        &self,
        ins: &mut Vec<u32>,
        operator: u32,
        guards: &[Guard],
    ) -> Result<(), OutOfMemory>
        ensures { OnOk result (ins.new.items ≡ ins.old.items ++
            map (λ d. numbering self.now (copy operator d.source)) guards.now) }
    {
        for guard in guards {
            ins.push(self.buffer(operator, guard.source))?;
        }
        Ok(())
    }

    /// Adds the buffers of these sources.
    fn read_sources(
        &self,
        ins: &mut Vec<u32>,
        operator: u32,
        sources: &[Source],
    ) -> Result<(), OutOfMemory>
        ensures { OnOk result (ins.new.items ≡ ins.old.items ++
            map (λ x. numbering self.now (copy operator x)) sources.now) }
    {
        for source in sources {
            ins.push(self.buffer(operator, *source))?;
        }
        Ok(())
    }

    /// The buffers that the run of an operation reads.
    pub fn ins(&self, alloc: Global, decision: &Decision) -> Result<Items<u32>, OutOfMemory>
        ensures { IfOk result (λ ins. ins ≡
            map (numbering self.now) (read_by self.now.vertices.now (run decision.now))) }
    {
        let mut ins = Vec::new(alloc);
        let op = decision.op;
        self.read_guards(&mut ins, decision.operator, guards_of(self.vertices, op))?;
        self.read_sources(&mut ins, decision.operator, ins_of(self.vertices, op))?;
        Ok(Items::new(ins))
    }

    /// Adds the buffers of as many outputs of an operation as these are.
    fn give_all(
        &self,
        outs: &mut Vec<u32>,
        decision: &Decision,
        lens: &[u32],
    ) -> Result<(), OutOfMemory>
        ensures { OnOk result (outs.new.items ≡ outs.old.items ++
            map (numbering self.now) (map (copy decision.now.operator)
            (outputs_from decision.now.op 0 lens.now))) }
    {
        for (port, _len) in lens.iter().enumerate() {
            let source = Source {
                vertex: decision.op,
                port: to_u32(port)?,
            };
            outs.push(self.buffer(decision.operator, source))?;
        }
        Ok(())
    }

    /// The buffers that the run of an operation writes.
    pub fn outs(&self, alloc: Global, decision: &Decision) -> Result<Items<u32>, OutOfMemory>
        ensures { IfOk result (λ outs. outs ≡
            map (numbering self.now) (made_by self.now.vertices.now (run decision.now))) }
    {
        let mut outs = Vec::new(alloc);
        self.give_all(&mut outs, decision, outs_of(self.vertices, decision.op))?;
        Ok(Items::new(outs))
    }

    /// The call of an operation.
    fn call(
        &self,
        alloc: Global,
        loops: &mut Vec<Vec<Instr>>,
        decision: &Decision,
    ) -> Result<(), OutOfMemory>
        ensures many { vec_len loops.new ≡ vec_len loops.old }
        ensures adds { OnOk result (Adds loops.old.items loops.new.items (steps_at self.now (run decision.now))) }
    {
        let sequence = self.sequence(decision.operator, None)?;
        let ins = self.ins(alloc, decision)?;
        let outs = self.outs(alloc, decision)?;
        let call = Instr::Call {
            vertex: decision.op,
            ins,
            outs,
        };
        push_step(loops, sequence, call)
    }

    /// The transfers of a decision, and then its operation.
    fn take(
        &self,
        alloc: Global,
        loops: &mut Vec<Vec<Instr>>,
        decision: &Decision,
    ) -> Result<(), OutOfMemory>
        ensures many { vec_len loops.new ≡ vec_len loops.old }
        ensures adds { OnOk result (Adds loops.old.items loops.new.items
            (flat_map (steps_at self.now) (acts_of (decision.now ∷ [])))) }
    {
        self.carry_all(loops, decision.transfers.as_slice())?;
        self.call(alloc, loops, decision)?;
        Ok(())
    }

    /// The loops of the sequences, each of the instructions of these decisions' acts.
    pub fn loops(
        &self,
        alloc: Global,
        decisions: &[Decision],
    ) -> Result<Vec<Vec<Instr>>, OutOfMemory>
        ensures many { IfOk result (λ loops. vec_len loops ≡ length self.now.sequences.now) }
        ensures each { IfOk result (λ loops. HasLoops loops.items
            (flat_map (steps_at self.now) (acts_of decisions.now))) }
    {
        let mut loops = empty_loops(alloc, self.sequences.len())?;
        for decision in decisions {
            self.take(alloc, &mut loops, decision)?;
        }
        Ok(loops)
    }
}

/// As many loops without instructions.
fn empty_loops(alloc: Global, count: usize) -> Result<Vec<Vec<Instr>>, OutOfMemory>
    ensures many { IfOk result (λ loops. vec_len loops ≡ count) }
    ensures each { IfOk result (λ loops. HasLoops loops.items []) }
{
    let mut loops = Vec::new(alloc);
    for _ in 0..count {
        loops.push(Vec::new(alloc))?;
    }
    Ok(loops)
}
