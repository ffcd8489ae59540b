//! A job: a well-formed program with the sensors' rows and the delays' opening values.
use crate::totals::{limit_fault, total_steps};
use executive_program::{Archi, Flat, Kind, Program, Vertex};
use std::marker::Model;
use syn_base::{Items, LimitFault, SensorRows};

/// A program with what it runs on. The program is well formed for the flat graph and the architecture,
/// the rows are those of the graph's sensors in at most 10,000 reactions, each delay has an opening
/// vector of its length, and neither the actuators' elements nor the micro-steps in all are above their
/// limits.
#[derive(Drop)]
pub struct Job<'a> {
    program: &'a Program,
    flat: &'a Flat,
    archi: &'a Archi,
    rows: &'a SensorRows,
    opening: Items<Items<i64>>,
}

impl<'a> Model for Job<'a> {
    ghost use Rattle.std.specs.Prelude.{length};
    ghost use Rattle.std.specs.Coded.{codes};
    ghost use Rattle.executive_program.specs.BodyCode.{expr_code};
    ghost use Rattle.executive_program.specs.Graph.{graph_code};
    ghost use Rattle.semaphore_core.specs.Job.{JobData, job_code};
    ghost use Rattle.semaphore_core.specs.IsJob.{IsJobOn, job_of};

    ghost Value = { JobData };

    ghost coded = { job_code (Prim.hlevel codes) (graph_code (Prim.hlevel codes) (expr_code (Prim.hlevel codes))) };

    ghost view = { λ s. job_of s.program.now s.flat.now s.archi.now s.rows.now s.opening };

    ghost invariant = { λ s. IsJobOn s.archi.now (job_of s.program.now s.flat.now s.archi.now s.rows.now s.opening) };
}

impl<'a> Job<'a> {
    ghost use Rattle.std.specs.Prelude.{◌≡◌, ℕ, ◌<◌, length, slice_index_or, [], IfOk, IfErr, None, Some};
    ghost use Rattle.executive_program.specs.declared.Kind.TheVariants.{Sensor};
    ghost use Rattle.executive_program.specs.Meaning.{sensed};
    ghost use Rattle.semaphore_core.specs.Job.{total_steps};
    ghost use Rattle.semaphore_core.specs.IsJob.{FitTogether, IsJob, job_of, limit_of};

    /// A job of a program on what it runs on. It takes no memory, and after a refusal `opening` is
    /// dropped.
    ///
    /// It asks that the program is well formed for the flat graph and the architecture, that the rows
    /// are those of the graph's sensors in at most 10,000 reactions, and that each delay has an opening
    /// vector of its length. `Output` comes where reactions times the actuators' elements are above
    /// 2,000,000, whatever the micro-steps are. `Total` comes else, where the micro-steps of all
    /// prologues and of all reactions are above 20,000,000. Both tell the exact number; of micro-steps
    /// at most the last value of its type.
    pub fn new(
        program: &'a Program,
        flat: &'a Flat,
        archi: &'a Archi,
        rows: &'a SensorRows,
        opening: Items<Items<i64>>,
    ) -> Result<Job<'a>, LimitFault>
        requires { FitTogether archi.now (job_of program.now flat.now archi.now rows.now opening) }
        ensures job { IfOk result (λ job. (job ≡ job_of program.now flat.now archi.now rows.now
            opening) × (limit_of job ≡ None)) }
        ensures limit { IfErr result (λ fault. limit_of
            (job_of program.now flat.now archi.now rows.now opening) ≡ Some fault) }
    {
        rows.are_cut();
        match limit_fault(program, flat, rows.count()) {
            Some(fault) => Err(fault),
            None => Ok(Job {
                program,
                flat,
                archi,
                rows,
                opening,
            }),
        }
    }

    /// The program.
    pub fn program(&self) -> &Program
        ensures same { result.now ≡ self.now.program }
        ensures job { IsJob self.now }
    {
        self.program
    }

    /// The flat graph.
    pub fn flat(&self) -> &Flat
        ensures { result.now ≡ self.now.graph }
    {
        self.flat
    }

    /// The number of reactions.
    pub fn reactions(&self) -> usize
        ensures { result ≡ length self.now.sensors }
    {
        self.rows.count()
    }

    /// What an operation senses in a reaction.
    pub fn sensed(&self, x: &Vertex, reaction: usize) -> &[i64]
        requires sensor { (i : ℕ) → x.now.kind ≡ Sensor i → i < length self.now.lens }
        requires reaction { reaction < length self.now.sensors }
        ensures value { result.now ≡ sensed x.now.kind (slice_index_or self.now.sensors reaction []) }
        ensures len { (i : ℕ) → x.now.kind ≡ Sensor i → length result.now ≡ slice_index_or self.now.lens i 0 }
    {
        match &x.kind {
            Kind::Sensor(i) => self.rows.vector(reaction, *i as usize),
            _ => &[],
        }
    }

    /// The opening values of the delays, by their number.
    pub fn opening(&self) -> &[Items<i64>]
        ensures same { result.now ≡ self.now.opening }
        ensures job { IsJob self.now }
    {
        self.opening.as_slice()
    }

    /// The number of sequences of the program. It fits, since an architecture has at most 16 operators and
    /// 16 media.
    pub fn sequences(&self) -> u32
        ensures { result ≡ length self.now.program.seqs }
    {
        // The clause of `operators` is that the architecture is valid: it bounds operators and media, so the cast fits.
        let _ = self.archi.operators();
        self.program.seqs.as_slice().len() as u32
    }

    /// The number of micro-steps in all: those of the prologues, and in each reaction those of the
    /// loops. It is exact, since a job has at most 20,000,000, and takes no memory.
    pub fn total_steps(&self) -> u64
        ensures { result ≡ total_steps self.now.program (length self.now.sensors) }
    {
        total_steps(self.program, self.rows.count()) as u64
    }

    /// The number of media.
    pub fn media(&self) -> usize
        ensures { result ≡ self.now.media }
    {
        self.archi.media().len()
    }
}
