//! The plan of a reaction: what must precede each act, found once for all reactions.
ghost use Rattle.std.specs.Prelude.{◌≡◌, ◌<◌, ◌≤◌, ◌++◌, All, IfOk, OnErr, OnOk, length};
ghost use Rattle.syn_base.specs.Limits.{bound_of};
ghost use Rattle.syn_base.specs.declared.limits.LimitKind.TheVariants.{Operators, Ports};
ghost use Rattle.sequence_build_laws.specs.Acts.{carry, copy, run};
ghost use Rattle.sequence_build_laws.specs.FlatValid.{HasFewOutputs};
ghost use Rattle.self_timed.specs.Laid.{Follows, HasPlace, HasRow, HasShape, HaveGuardPlaces, HavePlaces, IsCarried, IsDecided, IsPlaced, after, empty_makers, guard_makers, input_makers, laid_out, maker_in, makers_of, place, started, with_decision, with_note, with_outputs, with_step, with_transfers};

use crate::line::Line;
use sequence_build_laws::{Decision, Guard, Source, Transfer, Vertex};
use std::alloc::Global;
use std::marker::Model;
use syn_base::{Items, OutOfMemory};

/// The most operators.
const MOST_OPERATORS: usize = 16;

/// An act as far as dates go: its entry, its line, and the entries of the acts that make what it reads.
#[derive(Drop)]
pub struct Step {
    pub entry: usize,
    pub line: Line,
    pub sources: Items<usize>,
}

/// The acts of a schedule in their order, and how many entries there are.
#[derive(Drop)]
pub struct Plan {
    pub entries: usize,
    pub steps: Vec<Step>,
}

/// The acts of a schedule. Contracts of this file speak of the acts so far.
pub fn plan_of(
    alloc: Global,
    vertices: &[Vertex],
    decisions: &[Decision],
) -> Result<Plan, OutOfMemory>
    requires few { All HasFewOutputs vertices.now }
    requires decided { All (IsDecided vertices.now) decisions.now }
    ensures entries { IfOk result (λ p. p.entries ≡ (laid_out vertices.now decisions.now).next) }
    ensures steps { IfOk result (λ p. p.steps.items ≡ (laid_out vertices.now decisions.now).steps) }
{
    let mut layout = Layout::new(alloc, vertices)?;
    for decision in decisions {
        layout.take(decision)?;
    }
    Ok(layout.finish())
}

/// The steps of the acts so far, the entry of the next transfer, and which act has made the copy of each
/// output on each operator: for each operation a row of 16 entries for each of its outputs.
#[derive(Drop)]
struct Layout<'a> {
    alloc: Global,
    vertices: &'a [Vertex],
    next: usize,
    makers: Vec<Items<usize>>,
    steps: Vec<Step>,
}

impl<'a> Model for Layout<'a> {
    ghost use Rattle.self_timed.specs.Laid.{Laid};

    ghost Value = { Laid };

    ghost view = { λ s. record {
      vertices = s.vertices.now;
      next = s.next;
      makers = s.makers.items;
      steps = s.steps.items;
    } };
}

impl<'a> Layout<'a> {
    /// Nothing is made so far.
    fn new(alloc: Global, vertices: &'a [Vertex]) -> Result<Layout<'a>, OutOfMemory>
        requires { All HasFewOutputs vertices.now }
        ensures { IfOk result (λ l. l ≡ started vertices.now) }
    {
        Ok(Layout {
            alloc,
            vertices,
            next: vertices.len(),
            makers: no_makers(alloc, vertices)?,
            steps: Vec::new(alloc),
        })
    }

    /// The steps, with how many entries there are.
    fn finish(self) -> Plan
        ensures entries { result.entries ≡ self.entry.next }
        ensures steps { result.steps.items ≡ self.entry.steps }
    {
        Plan {
            entries: self.next,
            steps: self.steps,
        }
    }

    /// One more decision: its transfers, and then its operation.
    fn take(&mut self, decision: &Decision) -> Result<(), OutOfMemory>
        requires shape { HasShape self.old.vertices self.old.makers }
        requires decided { IsDecided self.old.vertices decision.now }
        ensures shape { OnOk result (HasShape self.new.vertices self.new.makers) }
        ensures vertices { self.new.vertices ≡ self.old.vertices }
        ensures after { OnOk result (Follows self.old (with_decision decision.now) self.new) }
    {
        self.carry_all(decision.transfers.as_slice())?;
        self.run(decision)
    }

    /// Transfers, one more after the other.
    fn carry_all(&mut self, transfers: &[Transfer]) -> Result<(), OutOfMemory>
        requires shape { HasShape self.old.vertices self.old.makers }
        requires carried { All (IsCarried self.old.vertices) transfers.now }
        ensures shape { OnOk result (HasShape self.new.vertices self.new.makers) }
        ensures vertices { self.new.vertices ≡ self.old.vertices }
        ensures after { OnOk result (Follows self.old (with_transfers transfers.now) self.new) }
    {
        for transfer in transfers {
            self.carry(*transfer)?;
        }
        Ok(())
    }

    /// One more transfer: it reads its value on the near operator, and has the next entry.
    fn carry(&mut self, transfer: Transfer) -> Result<(), OutOfMemory>
        requires shape { HasShape self.old.vertices self.old.makers }
        requires carried { IsCarried self.old.vertices transfer }
        ensures shape { OnOk result (HasShape self.new.vertices self.new.makers) }
        ensures vertices { self.new.vertices ≡ self.old.vertices }
        ensures after { OnOk result (self.new ≡ after self.old (carry transfer)) }
    {
        let entry = self.next;
        let source = self.maker(transfer.source, transfer.from);
        let sources = vec![in self.alloc; source]?;
        self.next = entry.checked_add(1).ok_or(OutOfMemory)?;
        self.add(entry, Line::Medium(transfer.medium), sources)?;
        self.note(transfer.source, transfer.to, entry);
        Ok(())
    }

    /// One more operation: it reads its sources on its operator, and makes its outputs there.
    fn run(&mut self, decision: &Decision) -> Result<(), OutOfMemory>
        requires shape { HasShape self.old.vertices self.old.makers }
        requires placed { IsPlaced self.old.vertices decision.now }
        ensures shape { OnOk result (HasShape self.new.vertices self.new.makers) }
        ensures vertices { self.new.vertices ≡ self.old.vertices }
        ensures after { OnOk result (self.new ≡ after self.old (run decision.now)) }
    {
        let vertices = self.vertices;
        let op = decision.op as usize;
        let vertex = &vertices[op];
        let sources = self.sources(vertex, decision.operator)?;
        self.add(op, Line::Operator(decision.operator), sources)?;
        self.note_outputs(decision.op, decision.operator, vertex.outs.as_slice());
        Ok(())
    }

    /// One more step. After want of memory all is as before.
    fn add(&mut self, entry: usize, line: Line, sources: Vec<usize>) -> Result<(), OutOfMemory>
        ensures ok { OnOk result (self.new ≡ with_step self.old entry line sources.items) }
        ensures err { OnErr result (self.new ≡ self.old) }
    {
        self.steps.push(Step {
            entry,
            line,
            sources: Items::new(sources),
        })?;
        Ok(())
    }

    /// The entries of the acts that have made what an operation reads on an operator.
    fn sources(&self, vertex: &Vertex, operator: u32) -> Result<Vec<usize>, OutOfMemory>
        requires guards { HaveGuardPlaces self.now.makers operator vertex.now.guards }
        requires inputs { HavePlaces self.now.makers operator vertex.now.ins }
        ensures { IfOk result (λ v. v.items ≡ makers_of self.now.makers operator vertex.now) }
    {
        let mut sources = Vec::new(self.alloc);
        self.add_guards(&mut sources, vertex.guards.as_slice(), operator)?;
        self.add_inputs(&mut sources, vertex.ins.as_slice(), operator)?;
        Ok(sources)
    }

    /// Appends the entries of the acts that have made what guards read on an operator.
    fn add_guards(
        &self,
        sources: &mut Vec<usize>,
        guards: &[Guard],
        operator: u32,
    ) -> Result<(), OutOfMemory>
        requires { HaveGuardPlaces self.now.makers operator guards.now }
        ensures { OnOk result (sources.new.items ≡
            sources.old.items ++ guard_makers self.now.makers operator guards.now) }
    {
        for guard in guards {
            sources.push(self.maker(guard.source, operator))?;
        }
        Ok(())
    }

    /// Appends the entries of the acts that have made what inputs read on an operator.
    fn add_inputs(
        &self,
        sources: &mut Vec<usize>,
        inputs: &[Source],
        operator: u32,
    ) -> Result<(), OutOfMemory>
        requires { HavePlaces self.now.makers operator inputs.now }
        ensures { OnOk result (sources.new.items ≡
            sources.old.items ++ input_makers self.now.makers operator inputs.now) }
    {
        for input in inputs {
            sources.push(self.maker(*input, operator))?;
        }
        Ok(())
    }

    /// The entry of the act that has made the value's copy on the operator.
    fn maker(&self, source: Source, operator: u32) -> usize
        requires { HasPlace self.now.makers (copy operator source) }
        ensures { result ≡ maker_in self.now.makers (copy operator source) }
    {
        self.makers[source.vertex as usize].as_slice()[place(source, operator)]
    }

    /// The act of this entry has made the value's copy on the operator. It takes no memory.
    fn note(&mut self, source: Source, operator: u32, entry: usize)
        requires { HasPlace self.old.makers (copy operator source) }
        ensures { self.new ≡ with_note self.old (copy operator source) entry }
    {
        self.makers[source.vertex as usize].set(place(source, operator), entry);
    }

    /// The operation has made its outputs on the operator. It takes no memory.
    fn note_outputs(&mut self, op: u32, operator: u32, outs: &[u32])
        requires row { HasRow self.old.makers op (length outs.now) }
        requires few { (operator < bound_of Operators) × (length outs.now ≤ bound_of Ports) }
        ensures { self.new ≡ with_outputs self.old op operator outs.now }
    {
        let mut port = 0;
        for _out in outs {
            self.note(Source { vertex: op, port }, operator, op as usize);
            port += 1;
        }
    }
}

/// Where the copy on the operator stands in its operation's row.
fn place(source: Source, operator: u32) -> usize
    ensures { result ≡ place (copy operator source) }
{
    source.port as usize * MOST_OPERATORS + operator as usize
}

/// A row for each operation.
fn no_makers(alloc: Global, vertices: &[Vertex]) -> Result<Vec<Items<usize>>, OutOfMemory>
    requires { All HasFewOutputs vertices.now }
    ensures { IfOk result (λ rows. rows.items ≡ empty_makers vertices.now) }
{
    let mut rows = Vec::with_capacity(alloc, vertices.len())?;
    for vertex in vertices {
        let places = vertex.outs.as_slice().len() * MOST_OPERATORS;
        rows.push(Items::new(vec![in alloc; 0; places]?))?;
    }
    Ok(rows)
}
